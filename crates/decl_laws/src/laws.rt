ghost use Rattle.decl_laws.specs.Laws.{IsFileWellMade};

/// Does nothing: its contract is a law of what `declarations` gives of a file. Where its lists are short, it is well made, so that
/// a program can be joined of it.
pub fn each_file_is_well_made(bytes: &[u8])
    ensures { IsFileWellMade bytes.now }
{}
