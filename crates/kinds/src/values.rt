// What a frame carries whose payload has always the same size.

ghost use Rattle.std.specs.Prelude.{◌≡◌, ℕ, Bool, List};
ghost use Rattle.payloads.specs.Numbers.{number_bytes};
ghost use Rattle.kinds.specs.Kinds.{entry_payload, entry_fits, done_payload, done_fits, refused_payload, refused_fits};
ghost use Rattle.kinds.specs.Carried.{Carries, entry_in, entry_held, done_in, done_held, refused_in, refused_held};
ghost use Rattle.kinds.specs.Laws.{entry_carries, done_carries, refused_carries};

use crate::{Done, Entry, Refused, Span};

// The values of a frame: whether they fit their fields, and the N bytes of their payload, from which they are read back.
pub trait Values<const N: usize>: Copy {
    ghost fit: { Self → Bool };

    ghost bytes_of: { Self → List ℕ };

    ghost values_in: { List ℕ → Self };

    // What the types of the values hold.
    ghost held: { Self → Type 0 };

    // Whether each value fits its field.
    fn fits(self) -> bool
        ensures { result ≡ fit self };

    // The values, the highest byte of each first. Those that do not fit are cut off, which fits tells.
    fn payload(self) -> [u8; N]
        ensures { result ≡ bytes_of self };

    // The values in a frame's bytes, whose payload stands from place 2 on.
    fn read(bytes: &[u8; 67]) -> Self
        ensures { result ≡ values_in bytes.now };

    // The payload is as long as it says and fits a line, and values that fit are read back from it.
    ghost laws: { Carries N fit bytes_of values_in held };
}

impl Values<10> for Entry {
    ghost fit = { entry_fits };

    ghost bytes_of = { entry_payload };

    ghost values_in = { entry_in };

    ghost held = { entry_held };

    ghost laws = { entry_carries };

    #[tactic(auto, unfolding(crate::specs::Kinds::entry_fits))]
    fn fits(self) -> bool {
        (self.first.start < 65536)
            & (self.first.end < 65536)
            & (self.second.start < 65536)
            & (self.second.end < 65536)
            & (self.weight < 65536)
    }

    #[tactic(auto, unfolding(crate::specs::Kinds::entry_payload, payloads::specs::Numbers::number_bytes))]
    fn payload(self) -> [u8; 10] {
        let mut payload = [0u8; 10];
        payloads::put_number(&mut payload, 0, 2, self.first.start);
        payloads::put_number(&mut payload, 2, 2, self.first.end);
        payloads::put_number(&mut payload, 4, 2, self.second.start);
        payloads::put_number(&mut payload, 6, 2, self.second.end);
        payloads::put_number(&mut payload, 8, 2, self.weight);
        payload
    }

    #[tactic(auto, unfolding(crate::specs::Carried::entry_in))]
    fn read(bytes: &[u8; 67]) -> Self {
        Entry {
            first: Span {
                start: payloads::number_at(bytes, 2, 2),
                end: payloads::number_at(bytes, 4, 2),
            },
            second: Span {
                start: payloads::number_at(bytes, 6, 2),
                end: payloads::number_at(bytes, 8, 2),
            },
            weight: payloads::number_at(bytes, 10, 2),
        }
    }
}

impl Values<20> for Done {
    ghost fit = { done_fits };

    ghost bytes_of = { done_payload };

    ghost values_in = { done_in };

    ghost held = { done_held };

    ghost laws = { done_carries };

    // The link total fits as it is: eight bytes hold it.
    #[tactic(auto, unfolding(crate::specs::Kinds::done_fits))]
    fn fits(self) -> bool {
        (self.listed < 4294967296) & (self.matches < 4294967296) & (self.widest < 4294967296)
    }

    #[tactic(auto, unfolding(crate::specs::Kinds::done_payload, payloads::specs::Numbers::number_bytes))]
    fn payload(self) -> [u8; 20] {
        let mut payload = [0u8; 20];
        payloads::put_number(&mut payload, 0, 4, self.listed);
        payloads::put_number(&mut payload, 4, 4, self.matches);
        payloads::put_number(&mut payload, 8, 4, self.widest);
        payloads::put_number(&mut payload, 12, 8, self.links);
        payload
    }

    #[tactic(auto, unfolding(crate::specs::Carried::done_in))]
    fn read(bytes: &[u8; 67]) -> Self {
        Done {
            listed: payloads::number_at(bytes, 2, 4),
            matches: payloads::number_at(bytes, 6, 4),
            widest: payloads::number_at(bytes, 10, 4),
            links: payloads::number_at(bytes, 14, 8),
        }
    }
}

impl Values<6> for Refused {
    ghost fit = { refused_fits };

    ghost bytes_of = { refused_payload };

    ghost values_in = { refused_in };

    ghost held = { refused_held };

    ghost laws = { refused_carries };

    // A byte holds the number and one the sequence, four the detail.
    #[tactic(auto, unfolding(crate::specs::Kinds::refused_fits))]
    fn fits(self) -> bool {
        (self.number < 256) & (self.sequence < 256) & (self.detail < 4294967296)
    }

    #[tactic(auto, unfolding(crate::specs::Kinds::refused_payload, payloads::specs::Numbers::number_bytes))]
    fn payload(self) -> [u8; 6] {
        let mut payload = [0u8; 6];
        payloads::put_number(&mut payload, 0, 1, self.number);
        payloads::put_number(&mut payload, 1, 1, self.sequence);
        payloads::put_number(&mut payload, 2, 4, self.detail);
        payload
    }

    #[tactic(auto, unfolding(crate::specs::Carried::refused_in))]
    fn read(bytes: &[u8; 67]) -> Self {
        Refused {
            number: payloads::number_at(bytes, 2, 1),
            sequence: payloads::number_at(bytes, 3, 1),
            detail: payloads::number_at(bytes, 4, 4),
        }
    }
}
