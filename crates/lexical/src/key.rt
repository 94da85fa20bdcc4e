// The keys of the lines of a sequence text.
ghost use Rattle.std.specs.Prelude.{◌≡◌};
ghost use Rattle.lexical.specs.Keys.{key_named};

#[derive(Clone, Copy, PartialEq, Eq)]
pub enum Key {
    Form,
    Autos,
    Clocks,
    Triggers,
    Chans,
    Var,
    Task,
    Set,
    Loc,
    Inv,
    Edge,
    Clk,
    Dif,
    Val,
    Zero,
    Edges,
}

// The key that bytes are, or none: an `Option` and no `TryFrom`, since who asks makes the fault, with its place.
#[tactic(auto, using(crate::proofs::Named::none_named))]
pub fn key_named(key: &[u8]) -> Option<Key>
    ensures { result ≡ key_named key.now }
{
    match key {
        b"form" => Some(Key::Form),
        b"autos" => Some(Key::Autos),
        b"clocks" => Some(Key::Clocks),
        b"triggers" => Some(Key::Triggers),
        b"chans" => Some(Key::Chans),
        b"var" => Some(Key::Var),
        b"task" => Some(Key::Task),
        b"set" => Some(Key::Set),
        b"loc" => Some(Key::Loc),
        b"inv" => Some(Key::Inv),
        b"edge" => Some(Key::Edge),
        b"clk" => Some(Key::Clk),
        b"dif" => Some(Key::Dif),
        b"val" => Some(Key::Val),
        b"zero" => Some(Key::Zero),
        b"edges" => Some(Key::Edges),
        _ => None,
    }
}
