ghost use Rattle.std.specs.Prelude.{◌≡◌};
ghost use Rattle.jit_main.specs.Ends.{status_when};

/// The text of the answers, and whether a call didn't answer a value, or that it has none.
#[derive(Drop)]
pub struct Answered {
    pub text: Vec<u8>,
    pub is_unanswered: bool,
}

impl Answered {
    /// The status that the program ends with once the text is written.
    pub fn status(&self) -> u8
        ensures { result ≡ status_when self.now.is_unanswered }
    {
        if self.is_unanswered { 1 } else { 0 }
    }
}
