//! That what the pressure says of paths is what paths do. The function does nothing; its clause is proved.
ghost use Rattle.bed_syntax.specs.Paths.{EarlyIsSomePath};

/// A local is read early in a command exactly where some path through it reads the local before it sets it.
pub fn early_is_some_path()
    ensures { EarlyIsSomePath }
{}
