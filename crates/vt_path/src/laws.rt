//! What the definitions of paths and patterns give. These functions do nothing; each has a law for its contract.

ghost use Rattle.vt_path.specs.LiteralText.{IsOneKeptPath};
ghost use Rattle.vt_path.specs.Path.{IsOnePath};
ghost use Rattle.vt_path.specs.Pattern.{IsOnePattern};

/// No bytes are two paths.
pub fn one_path_law()
    ensures { IsOnePath }
{}

/// No bytes are two patterns.
pub fn one_pattern_law()
    ensures { IsOnePattern }
{}

/// No bytes are two paths of a program, inner ones among them.
pub fn one_kept_path_law()
    ensures { IsOneKeptPath }
{}
