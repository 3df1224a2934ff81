//! Laws of descriptions. The functions answer nothing and promise the laws.
ghost use Rattle.std.specs.Prelude.{ℕ, List, IsTrue};
ghost use Rattle.jx_base.specs.ClassNames.{is_class_name};
ghost use Rattle.jx_base.specs.declared.program.Plan.{Plan};
ghost use Rattle.program_model.specs.Plans.{IsPlanInRange};
ghost use Rattle.system_text.specs.Description.{Describes, one_class_plan};

/// The numbers, names and lists of a described plan lie in their ranges.
pub fn plan_is_in_range()
    ensures { (bytes : List ℕ) (plan : Plan) → Describes bytes plan → IsPlanInRange plan }
{}

/// So do those of the plan of a class alone, where its name is a class name.
pub fn one_class_is_in_range()
    ensures { (name : List ℕ) → IsTrue (is_class_name name) → IsPlanInRange (one_class_plan name) }
{}
