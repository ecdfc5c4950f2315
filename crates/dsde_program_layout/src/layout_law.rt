//! Laws of what is laid.

ghost use Rattle.dsde_program_layout.specs.LaidIs.{LaidIs, ModelLaid};

/// A law: what is laid for an expression behind a table is its resolution from the next number on.
pub fn laid_is()
    ensures { LaidIs }
{}

/// A law: what is laid for a whole model is its resolution.
pub fn model_laid()
    ensures { ModelLaid }
{}
