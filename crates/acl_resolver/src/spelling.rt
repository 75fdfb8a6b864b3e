use flat_model::{ScriptWord, Text};

/// A word that a script may have, and what it stands for.
#[derive(Debug, Drop)]
pub struct Spelled {
    pub text: Text,
    pub word: ScriptWord,
}
