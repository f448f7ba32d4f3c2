// The kinds of a text's bytes.
ghost use Rattle.std.specs.Prelude.{ℕ, Bool, false, true, ◌≡◌};
ghost use Rattle.texts.specs.Kinds.{code_of, kind_of, wanted, wants_of, SeeksBy};

#[derive(Clone, Copy, PartialEq, Eq)]
pub enum Kind {
    Blank,
    Digit,
    Letter,
    Colon,
    Comment,
    Other,
}

#[tactic(auto, using(std::proofs::lemmas::Bool::Decides::nat_tests), unfolding(crate::specs::Kinds::kind_of))]
pub fn kind_of(byte: u8) -> Kind
    ensures { code_of result ≡ kind_of byte }
{
    match byte {
        b' ' | b'\n' | b'\r' => Kind::Blank,
        b'0'..=b'9' => Kind::Digit,
        b'a'..=b'z' => Kind::Letter,
        b':' => Kind::Colon,
        b'#' => Kind::Comment,
        _ => Kind::Other,
    }
}

impl Kind {
    // Each number stands here once.
    pub fn code(self) -> u8
        ensures { result ≡ code_of self }
    {
        match self {
            Kind::Blank => 0,
            Kind::Digit => 1,
            Kind::Letter => 2,
            Kind::Colon => 3,
            Kind::Comment => 4,
            Kind::Other => 5,
        }
    }
}

// What a search looks for. A test that says what it wants for every byte asks nothing of whoever calls `seek`, as a closure would.
pub trait Wanted: Copy {
    ghost wants: { Self → ℕ → Bool };

    fn wants(self, byte: u8) -> bool
        ensures { result ≡ wants self byte };
}

impl Wanted for Kind {
    ghost wants = { λ k. wants_of k true };

    fn wants(self, byte: u8) -> bool {
        kind_of(byte) == self
    }
}

// Every kind but this.
#[derive(Clone, Copy)]
pub struct Except {
    pub kind: Kind,
}

impl Wanted for Except {
    ghost wants = { λ e. wants_of e.kind false };

    fn wants(self, byte: u8) -> bool {
        kind_of(byte) != self.kind
    }
}

// A kind by its number, which may be any: a byte of that kind, where `is` says so, or a byte of another.
#[derive(Clone, Copy)]
pub struct Coded {
    pub kind: u8,
    pub is: bool,
}

impl Wanted for Coded {
    ghost wants = { λ c byte. wanted byte c.kind c.is };

    fn wants(self, byte: u8) -> bool {
        let is = kind_of(byte).code() == self.kind;
        if self.is { is } else { !is }
    }
}

// The first place from i on whose byte is wanted; the text's end where there is none, and past the end i itself.
pub fn seek<T: Wanted>(text: &[u8], i: usize, what: T) -> usize
    ensures { SeeksBy (T.wants what) text.now i result }
{
    for at in i..text.len() {
        if what.wants(text[at]) {
            return at;
        }
    }
    i.max(text.len())
}
