//! Laws of the definitions: each function does nothing, and its contract is the law.

ghost use Rattle.std.specs.Prelude.{◌≡◌, ◌≢◌, ◌↔◌, ◌≤◌, ◌<◌, ◌+◌, ◌^◌, ℕ, ℤ, List, length, take};
ghost use Rattle.std.specs.Prelude.{Some, Ok, Err, IsOk, All, FitsSigned, decimal};
ghost use Rattle.std.specs.Fmt.{signed_decimal};
ghost use Rattle.std.specs.Int.{w16};
ghost use Rattle.chip_core.specs.declared.width.Width.{Width as TheWidth};
ghost use Rattle.chip_core.specs.Complex.{norm};
ghost use Rattle.chip_core.specs.declared.check_form.CheckForm.{CheckForm as TheForm};
ghost use Rattle.cell_plan.specs.Pages.{sent_paging_rate};
ghost use Rattle.cell_plan.specs.Plan.{IsLawfulPlan};
ghost use Rattle.cell_script.specs.Script.{lines, plan_named, stated_plan};
ghost use Rattle.cell_plan.specs.Stated.{HasMessages, IsCarried, IsReceivable};
ghost use Rattle.line_text.specs.StatedValues.{number_up_to, signed_in};
ghost use Rattle.cell_script.specs.Spelling.{script_of};
ghost use Rattle.cell_plan.specs.declared.plan.CellPlan.{CellPlan};
ghost use Rattle.cell_script.specs.declared.script_fault.ScriptFault.TheVariants.{Line};

/// `Line { n }` is the smallest number n, counted from 1, such that no script whose lines state a
/// plan begins with lines 1 to n. If a script ends too early, n is the number of the line after the
/// last, and some script whose lines state a plan begins with all of its lines.
pub fn line_fault_is_the_first_that_no_script_has()
    ensures counted { (script : List ℕ) (n : ℕ) → stated_plan script ≡ Err n → 1 ≤ n }
    ensures refused { (script other : List ℕ) (n : ℕ) → stated_plan script ≡ Err n →
        n ≤ length (lines script) →
        IsOk (stated_plan other) → take n (lines other) ≢ take n (lines script) }
    ensures missing { (script : List ℕ) (n : ℕ) → stated_plan script ≡ Err n →
        length (lines script) < n →
        n ≡ length (lines script) + 1 }
    ensures least { (script : List ℕ) (n m : ℕ) → stated_plan script ≡ Err n → m < n →
        (other : List ℕ) × IsOk (stated_plan other) ×
        (take m (lines other) ≡ take m (lines script)) }
{}

/// A script is rejected with `Line { n }` exactly if it isn't too big, and its lines state no plan
/// because of line n.
pub fn line_faults_come_first()
    ensures { (width : TheWidth) (script : List ℕ) (n : ℕ) →
        (plan_named width script ≡ Err (Line n)) ↔
        ((length script ≤ 1048576) × (stated_plan script ≡ Err n)) }
{}

/// A number has only one spelling in a script, the decimal numeral that is printed for it. The same
/// holds for a signed number of 16 bits.
pub fn numbers_have_one_spelling()
    ensures signed { (z : ℤ) (text : List ℕ) → (signed_in text ≡ Some z) ↔
        ((text ≡ signed_decimal z) × FitsSigned w16 z) }
    ensures unsigned { (most n : ℕ) (text : List ℕ) → most < 2 ^ 64 →
        (number_up_to most text ≡ Some n) ↔ ((text ≡ decimal n) × (n ≤ most)) }
{}

/// The plan that a script names is lawful, its link isn't 0, and a handset can receive it: its
/// pages are messages that half-frames carry.
pub fn named_plan_is_lawful()
    ensures lawful { (width : TheWidth) (script : List ℕ) (plan : CellPlan) →
        plan_named width script ≡ Ok plan →
        IsLawfulPlan width plan × (0 < norm plan.link.factor) }
    ensures receivable { (width : TheWidth) (script : List ℕ) (plan : CellPlan) →
        plan_named width script ≡ Ok plan → IsReceivable width plan }
{}

/// Each page of the plan that a script names is a message of the paging channel, and the
/// half-frames of a channel's pages carry exactly their capsules, in order, for any form of the
/// checks.
pub fn named_pages_are_carried()
    ensures messages { (width : TheWidth) (script : List ℕ) (plan : CellPlan) →
        plan_named width script ≡ Ok plan → All HasMessages plan.paging }
    ensures carried { (width : TheWidth) (script : List ℕ) (plan : CellPlan) (form : TheForm) →
        plan_named width script ≡ Ok plan →
        All (IsCarried (sent_paging_rate plan.sync) form) plan.paging }
{}

/// If a script states a plan, the script written for this plan states it too. If a script names a
/// plan, the written one names it too, provided that it has at most 1,048,576 bytes.
pub fn written_script_names_its_plan()
    ensures stated { (script : List ℕ) (plan : CellPlan) → stated_plan script ≡ Ok plan →
        stated_plan (script_of plan) ≡ Ok plan }
    ensures named { (width : TheWidth) (script : List ℕ) (plan : CellPlan) →
        plan_named width script ≡ Ok plan → length (script_of plan) ≤ 1048576 →
        plan_named width (script_of plan) ≡ Ok plan }
{}
