// 01's numbers: each refusal has its own, and an answer that is none has 0.
#![tactic(auto)]

ghost use Rattle.std.specs.Prelude.{◌≡◌, ℕ};
ghost use Rattle.refusal.specs.Number.{answer_number};

// A refusal knows its number; which one, tells the enum that has it.
pub trait Refusal {
    ghost number_of: { Self → ℕ };

    fn number(self) -> u32
        ensures { result ≡ number_of self };
}

pub fn number<T: Copy, E: Refusal + Copy>(answer: Result<T, E>) -> u32
    ensures { result ≡ answer_number E.number_of answer }
{
    match answer {
        Ok(_) => 0,
        Err(refusal) => refusal.number(),
    }
}
