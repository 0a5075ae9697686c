//! Laws of the definitions. Each function does nothing; its contract is the law.

ghost use Rattle.cmd_options.specs.LinkOption.{LinksAreSpelled};

/// Each link that a record can have is spelled by its word.
pub fn links_are_spelled()
    ensures { LinksAreSpelled }
{}
