//! What holds of all lines: the call changes nothing, and its contract is the law.

ghost use Rattle.std.specs.Prelude.{◌≡◌, ◌≤◌, ◌∷◌, ℕ, List, length};
ghost use Rattle.std.specs.List.{All};
ghost use Rattle.ssi_store.specs.Meaning.Courses.{Command};
ghost use Rattle.ssi_line.specs.Meaning.Spelling.{Do, Line, IsLineOf};

use adya_line::laws::txn_lines;

/// A line asks for one thing.
pub fn lines_ask_for_one_thing()
    ensures { (x y : Line) (text : List ℕ) → IsLineOf x text → IsLineOf y text → x ≡ y }
{
    txn_lines();
}

/// The line of a command has at most 4,096 bytes. None of them is a control character, such as a line feed or zero, and the
/// first one is a letter.
pub fn commands_are_words()
    ensures short { (c : Command) (text : List ℕ) → IsLineOf (Do c) text → length text ≤ 4096 }
    ensures printed { (c : Command) (text : List ℕ) → IsLineOf (Do c) text → All (λ b. 32 ≤ b) text }
    ensures lettered { (c : Command) (text : List ℕ) → IsLineOf (Do c) text
        → (b : ℕ) × (rest : List ℕ) × (text ≡ b ∷ rest) × (97 ≤ b) }
{}
