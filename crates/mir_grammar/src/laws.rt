ghost use Rattle.mir_grammar.specs.Functions.{EachAnswerIsRight, EachPathIsRight, EachPlaceIsRight, EachTypeIsRight, HasOneReading};

/// The answer to each text is right: its functions, and no text means two lists of them; or the first token that goes on
/// to no text; or the first that begins a part nested too deep.
pub fn each_answer_is_right()
    ensures { EachAnswerIsRight }
{}

/// The same of types alone.
pub fn each_type_is_right()
    ensures { EachTypeIsRight }
{}

/// The same of paths alone.
pub fn each_path_is_right()
    ensures { EachPathIsRight }
{}

/// The same of places alone.
pub fn each_place_is_right()
    ensures { EachPlaceIsRight }
{}

/// A text means at most one list of functions, whatever the depths of nesting.
pub fn one_reading()
    ensures { HasOneReading }
{}
