//! Laws of the first lines of a segment, each proved as the contract of a function that changes nothing.

ghost use Rattle.ssi_loads.specs.Laws.{FirstLinesLoad, FirstLinesArePlain, FirstLinesAreClean};

use ssi_line::laws::commands_are_words;

/// A store that carries out the first lines of a segment from the beginning holds their rows and nothing else, and no session
/// has a transaction. This is said of rows whose keys rise and which are within their limits, as those of a scan, and of at
/// most 65,535 rows for each of the 4,294,967,295 transaction numbers, which is more than a memory holds.
pub fn first_lines_load()
    ensures { FirstLinesLoad }
{}

/// None of the first lines has a line feed, so a text that begins with them, each with its line feed, falls into these lines and
/// those that follow.
pub fn first_lines_are_plain()
    ensures { FirstLinesArePlain }
{
    commands_are_words();
}

/// No zero stands in the text of the first lines, so a log may have it.
pub fn first_lines_are_clean()
    ensures { FirstLinesAreClean }
{
    commands_are_words();
}
