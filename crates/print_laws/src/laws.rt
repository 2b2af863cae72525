ghost use Rattle.print_laws.specs.Laws.{EachMeaningReadsAgain, EachPathReadsAgain, EachPlaceIsPrinted, EachTextIsPrinted, EachTextReadsAgain, EachTypeIsPrinted, EachTypeReadsAgain};

/// Does nothing: its contract is a law. The canonical text of each type, as it stands in a longer path, reads again as
/// this type.
pub fn each_type_reads_again()
    ensures { EachTypeReadsAgain }
{}

/// The same of each path.
pub fn each_path_reads_again()
    ensures { EachPathReadsAgain }
{}

/// A type that is printed on its own reads again as this type.
pub fn each_type_is_printed()
    ensures { EachTypeIsPrinted }
{}

/// A place that is printed reads again as this place.
pub fn each_place_is_printed()
    ensures { EachPlaceIsPrinted }
{}

/// The functions of a text that is printed read again as these functions, wherever they stand.
pub fn each_text_is_printed()
    ensures { EachTextIsPrinted }
{}

/// The same by the tokens of the printed text itself: it means these functions, wherever they stand.
pub fn each_text_reads_again()
    ensures { EachTextReadsAgain }
{}

/// The functions that a text means, printed, are a text that means the same functions, each but for its place in the
/// text.
pub fn each_meaning_reads_again()
    ensures { EachMeaningReadsAgain }
{}
