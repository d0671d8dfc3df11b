// Numbers cut to bytes, lent bytes, and what a builder answers.
//
//   numbers.rt  numbers cut to one byte or two
//   lent.rt     others copied over lent bytes
#![tactic(auto)]

pub mod lent;
pub mod numbers;

ghost use Rattle.std.specs.Prelude.{◌≡◌, length, replicate};
ghost use Rattle.base_bytes.specs.Built.{refused};

// What a builder answers: the number if it is refused, or how many bytes it wrote.
#[repr(C)]
#[derive(Clone, Copy)]
pub struct Built {
    pub refusal: u8,
    pub len: usize,
}

// The buffer all zero, and the number.
pub fn refuse(buf: &mut [u8], refusal: u8) -> Built
    ensures value { result ≡ refused refusal }
    ensures buf_after { buf.new ≡ replicate (length buf.old) 0 }
{
    buf.fill(0);
    Built { refusal, len: 0 }
}
