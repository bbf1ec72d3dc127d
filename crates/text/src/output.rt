// What has been printed so far, at the head of a list that is lent.
ghost use Rattle.std.specs.Prelude.{◌≡◌, [], ◌∷◌, ◌+◌, ◌≤◌, length};
ghost use Rattle.text.specs.Prints.{HasRoom, Prints};
ghost use Rattle.text.specs.Text.{decimal, spaced};

#[derive(Drop)]
pub struct Output<'a> {
    pub bytes: &'a mut [u8],
    pub len: usize,
}

impl Output<'_> {
    // A word.
    pub fn word(&mut self, word: &[u8])
        requires { HasRoom (length word.now) self.old }
        ensures { Prints word.now self.old self.new }
    {
        let end = self.len + word.len();
        self.bytes[self.len..end].copy_from_slice(word);
        self.len = end;
    }

    // A byte.
    pub fn byte(&mut self, b: u8)
        requires { HasRoom 1 self.old }
        ensures { Prints (b ∷ []) self.old self.new }
    {
        self.bytes[self.len] = b;
        self.len += 1;
    }

    // A number, its last digit first.
    pub fn number(&mut self, n: usize)
        requires { HasRoom (length (decimal n)) self.old }
        ensures { Prints (decimal n) self.old self.new }
    {
        let end = self.len + width(n);
        let mut rest = n;
        for at in (self.len..end).rev() {
            self.bytes[at] = b'0' + (rest % 10) as u8;
            rest /= 10;
        }
        self.len = end;
    }

    // A number after a space.
    pub fn spaced(&mut self, n: usize)
        requires { HasRoom (length (spaced (n ∷ []))) self.old }
        ensures { Prints (spaced (n ∷ [])) self.old self.new }
    {
        self.byte(b' ');
        self.number(n);
    }

    // Numbers, each after a space.
    pub fn numbers(&mut self, numbers: &[u16])
        requires { HasRoom (length (spaced numbers.now)) self.old }
        ensures { Prints (spaced numbers.now) self.old self.new }
    {
        for n in numbers {
            self.spaced(usize::from(*n));
        }
    }
}

// How many digits a number has.
fn width(n: usize) -> usize
    ensures { result ≡ length (decimal n) }
{
    let mut rest = n;
    let mut k = 1;
    // No list is gone over: what is left of the number ends the loop.
    while 10 <= rest {
        rest /= 10;
        k += 1;
    }
    k
}
