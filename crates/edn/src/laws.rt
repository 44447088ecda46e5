//! Laws of texts and forms. The functions do nothing: each is proved to keep what its clause says.

ghost use Rattle.edn.specs.Laws.{FormsAreMade, OneForm, TokensAreRead};

/// A text begins with one form at most: two forms with which it begins are the same, however they are read.
pub fn one_form()
    ensures { OneForm }
{}

/// If a text begins with a token, that token is read from it, and what follows it is left.
pub fn tokens_are_read()
    ensures { TokensAreRead }
{}

/// The tokens of a form make that form and no other, wherever they stand, as long as nothing is nested too deep.
pub fn forms_are_made()
    ensures { FormsAreMade }
{}
