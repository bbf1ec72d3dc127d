// Marks on the numbers below 1,024: a flag for each. A struct that holds them is copied when it is passed by value, so the flags are
// lent to whatever sets many or asks many.
ghost use Rattle.std.specs.Prelude.{◌≡◌};
ghost use Rattle.register.specs.Marks.{unmarked};

#[derive(Drop)]
pub struct Marks {
    pub marks: [bool; Marks::ROOM],
}

impl Marks {
    pub const ROOM: usize = 1024;

    // No number is marked.
    pub fn none() -> Self
        ensures { result ≡ unmarked }
    {
        Marks {
            marks: [false; Marks::ROOM],
        }
    }
}
