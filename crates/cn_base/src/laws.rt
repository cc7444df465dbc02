//! How deep the blocks of a tree nest.

ghost use Rattle.cn_base.specs.Nests.{StatementNests};

/// A statement nests as deep as its deepest block does, and one without blocks not at all.
pub fn nests_law()
    ensures { StatementNests }
{}
