//! Laws of the definitions: each function does nothing, and its contract is the law.

ghost use Rattle.std.specs.Prelude.{◌≡◌, ℕ, Ok};
ghost use Rattle.chip_core.specs.declared.width.Width.TheVariants.{Sixteen};
ghost use Rattle.cell_script.specs.Script.{plan_named};
ghost use Rattle.trial_link.specs.Trial.{trial_plan, trial_text};

/// The script of every number names a lawful plan, that of `trial_plan`.
pub fn trial_scripts_are_lawful()
    ensures { (number : ℕ) → plan_named Sixteen (trial_text number) ≡ Ok (trial_plan number) }
{}
