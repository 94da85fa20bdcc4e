// The inner parts of an engine: what is due in each phase, and what each event changes.
// They are for the layers above in this workspace; nothing is promised to other callers.
#![tactic(auto)]

ghost use Rattle.std.specs.Prelude.{◌≡◌, ◌<◌, true, [], slice_set};
ghost use Rattle.ready_queue.specs.Waiting.{waiting, first_late};
ghost use Rattle.runs.specs.State.{in_phase, stopped, with_jobs, with_triggers};
ghost use Rattle.runs.specs.Jobs.{finished, worker};
ghost use Rattle.runs.specs.Edges.{Finds};
ghost use Rattle.runs.specs.Rules.{behind, next_tick};
ghost use Rattle.search.specs.Views.{state_of};
ghost use Rattle.machine.specs.Model.{model};
ghost use Rattle.machine.specs.Spent.{without_finished};
ghost use Rattle.machine.specs.Views.{Shows};

pub mod engine_core;

use engine_core::Core;
use guards::valuation::Valuation;
use jobs::job::Job;
use parts::set_item;
use runs::event::{Phase, Worker};
use search::view::View;

// The numbers of edges: all are candidates. Written out, since the search takes a slice of numbers and a constant's value is
// not computed; a macro that writes it would be no plainer.
const EDGE_NUMBERS: [u8; 128] = [
    0, 1, 2, 3, 4, 5, 6, 7, 8, 9, 10, 11, 12, 13, 14, 15, 16, 17, 18, 19, 20, 21, 22, 23, 24, 25,
    26, 27, 28, 29, 30, 31, 32, 33, 34, 35, 36, 37, 38, 39, 40, 41, 42, 43, 44, 45, 46, 47, 48, 49,
    50, 51, 52, 53, 54, 55, 56, 57, 58, 59, 60, 61, 62, 63, 64, 65, 66, 67, 68, 69, 70, 71, 72, 73,
    74, 75, 76, 77, 78, 79, 80, 81, 82, 83, 84, 85, 86, 87, 88, 89, 90, 91, 92, 93, 94, 95, 96, 97,
    98, 99, 100, 101, 102, 103, 104, 105, 106, 107, 108, 109, 110, 111, 112, 113, 114, 115, 116,
    117, 118, 119, 120, 121, 122, 123, 124, 125, 126, 127,
];

impl Core {
    // The current location of each automaton. The four rows in use are a slice each: element types and counts differ.
    pub fn places(&self) -> &[u8]
        ensures { result.now ≡ (model [] self.entry.now).places }
    {
        &self.places[..self.sequence.counts().automata as usize]
    }

    // The tick of each clock's last zeroing.
    pub fn zeroed(&self) -> &[u32]
        ensures { result.now ≡ (model [] self.entry.now).zeroed }
    {
        &self.zeroed[..self.sequence.counts().clocks as usize]
    }

    // The value of each variable.
    pub fn values(&self) -> &[i16]
        ensures { result.now ≡ (model [] self.entry.now).values }
    {
        &self.values[..self.sequence.variables().len()]
    }

    // Which triggers are present.
    pub fn present(&self) -> &[bool]
        ensures { result.now ≡ (model [] self.entry.now).present }
    {
        &self.present[..self.sequence.counts().triggers as usize]
    }

    // The first job past its deadline.
    pub fn late_job(&self) -> Option<Job>
        ensures { result ≡ first_late self.entry.now.now (waiting self.entry.now.queue) }
    {
        self.queue.first_late(self.now)
    }

    // The first job, if nothing remains to it.
    pub fn finished_job(&self) -> Option<Job>
        ensures { result ≡ finished (waiting self.entry.now.queue) }
    {
        self.queue.first().filter(|job| job.remaining == 0)
    }

    // The first job leaves, if nothing remains to it.
    pub fn remove_finished(&mut self)
        ensures { model [] self.exit.now ≡ with_jobs (without_finished (waiting self.entry.now.queue)) (model [] self.entry.now).values (model [] self.entry.now) }
    {
        if self.finished_job().is_some() {
            self.queue.remove_first();
        }
    }

    // The phase is over.
    pub fn leave(&mut self)
        ensures { model [] self.exit.now ≡ in_phase (behind self.entry.now.phase) (model [] self.entry.now) }
    {
        self.phase = match self.phase {
            Phase::Late => Phase::Finish,
            Phase::Finish => Phase::Arrival,
            Phase::Arrival => Phase::Edges,
            Phase::Edges => Phase::Close,
            Phase::Close => Phase::Pass,
            Phase::Pass => Phase::Pass,
        };
    }

    // The run is over.
    pub fn stop(&mut self)
        ensures { model [] self.exit.now ≡ stopped (model [] self.entry.now) }
    {
        self.ended = true;
    }

    // The next tick begins, and the first job works.
    pub fn pass(&mut self) -> Option<Worker>
        requires { self.now.now < 1000000000 }
        ensures after { model [] self.exit.now ≡ next_tick (model [] self.entry.now) }
        ensures works { result ≡ worker (waiting self.entry.now.queue) }
    {
        let worker = self.queue.serve().map(|job| Worker {
            job: job.number,
            task: job.task,
        });
        self.now += 1;
        self.phase = Phase::Late;
        self.steps = 0;
        worker
    }

    // A trigger of the sequence becomes present or goes.
    pub fn mark(&mut self, trigger: u8, present: bool)
        ensures { model [] self.exit.now ≡ with_triggers (slice_set (model [] self.entry.now).present trigger present) [] (model [] self.entry.now) }
    {
        set_item(&mut self.present, trigger as usize, present);
    }

    // What decides which edges are open.
    pub fn view(&self) -> View<'_>
        ensures { Shows (model [] self.entry.now) (state_of result) }
    {
        View {
            edges: self.sequence.edges(),
            locations: self.sequence.locations(),
            places: self.places(),
            valuation: Valuation {
                zeroed: self.zeroed(),
                values: self.values(),
            },
            present: self.present(),
            now: self.now,
        }
    }

    // The foremost open edge with its partner, or none where no edge is open.
    pub fn foremost(&self) -> Option<(u8, Option<u8>)>
        ensures { Finds (model [] self.entry.now) result }
    {
        let count = self.sequence.edges().len();
        self.view().foremost(&EDGE_NUMBERS[..count])
    }
}
