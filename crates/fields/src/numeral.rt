// The types of numbers that a field can be read as.
ghost use Rattle.std.specs.Prelude.{◌≡◌, ℕ, List, Result, ℤ, pos, negsuc, ◌≤ℤ◌};
ghost use Rattle.std.proofs.Common.{rules};
ghost use Rattle.lexical.specs.declared.fault.Place.{Place};
ghost use Rattle.lexical.specs.declared.fault.NumberFault.{NumberFault};
ghost use Rattle.lexical.specs.Numbers.{natural_of, integer_of};
ghost use Rattle.fields.specs.Numerals.{SameRead, natural_reads, pos_injective, integer_reads};

pub trait Numeral: Copy {
    // a number as an integer
    ghost value: { Self → ℤ };

    // what a field at a place says, from a least number to a greatest
    ghost read: { (low high : Self) → Place → List ℕ → Result Self NumberFault };

    // The same number, in 64 bits.
    fn wide(self) -> i64
        ensures same { result ≡ value self }
        ensures short { (negsuc 2147483647 ≤ℤ result) × (result ≤ℤ pos 4294967295) };

    // A number between two of the type.
    fn narrow(z: i64, low: Self, high: Self) -> Self
        requires { (value low ≤ℤ z) × (z ≤ℤ value high) }
        ensures { value result ≡ z };

    ghost reads: { (low high : Self) (at : Place) (bs : List ℕ) → SameRead value (read low high at bs) (integer_of (value low) (value high) at bs) };

    ghost injective: { (x y : Self) → value x ≡ value y → x ≡ y };
}

impl Numeral for u32 {
    ghost value = { pos };

    ghost read = { natural_of };

    ghost reads = { natural_reads };

    ghost injective = { pos_injective };

    fn wide(self) -> i64 {
        i64::from(self)
    }

    fn narrow(z: i64, _low: u32, _high: u32) -> u32 {
        z as u32
    }
}

impl Numeral for u8 {
    ghost value = { pos };

    ghost read = { natural_of };

    ghost reads = { natural_reads };

    ghost injective = { pos_injective };

    fn wide(self) -> i64 {
        i64::from(self)
    }

    fn narrow(z: i64, _low: u8, _high: u8) -> u8 {
        z as u8
    }
}

impl Numeral for i32 {
    ghost value = { λ z. z };

    ghost read = { integer_of };

    ghost reads = { integer_reads };

    ghost injective = { λ x y e. e };

    fn wide(self) -> i64 {
        i64::from(self)
    }

    fn narrow(z: i64, _low: i32, _high: i32) -> i32 {
        z as i32
    }
}

impl Numeral for i16 {
    ghost value = { λ z. z };

    ghost read = { integer_of };

    ghost reads = { integer_reads };

    ghost injective = { λ x y e. e };

    fn wide(self) -> i64 {
        i64::from(self)
    }

    fn narrow(z: i64, _low: i16, _high: i16) -> i16 {
        z as i16
    }
}
