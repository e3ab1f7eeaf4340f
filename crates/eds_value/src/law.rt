//! Laws of values as JSON: functions with no body, whose contracts are what was proved.

ghost use Rattle.eds_value.specs.Laws.{ArgumentsReadBack, ReadsBack, TextsAreOneLine, TextsReadBack};

/// The JSON of a value of a type is read, where that type is declared, as the same value.
pub fn reads_back()
    ensures { ReadsBack }
{}

/// The JSON of values of arguments is read, where these are declared, as the same values.
pub fn arguments_read_back()
    ensures { ArgumentsReadBack }
{}

/// No line feed stands in the JSON text of a value.
pub fn texts_are_one_line()
    ensures { TextsAreOneLine }
{}

/// The JSON text of a value of a type is read, where that type is declared, as the same value, if it is UTF-8: the names of a
/// table and the texts of a value, as a program has them, are.
pub fn texts_read_back()
    ensures { TextsReadBack }
{}
