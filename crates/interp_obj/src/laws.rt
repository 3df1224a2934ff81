//! Laws of the steps of instructions.
ghost use Rattle.std.specs.Prelude.{◌≡◌, ◌≢◌, not};
ghost use Rattle.jx_base.specs.declared.row.Row.TheVariants as rows;
ghost use Rattle.interp_num.specs.Steps.{is_numeric};
ghost use Rattle.interp_obj.specs.ObjectSteps.{is_object_row};

use jx_base::Row;

/// Each row but Missing is one on numbers or one on objects, and not both.
pub fn each_row_is_one_steps(row: Row)
    requires { row ≢ rows.Missing }
    ensures { is_numeric row ≡ not (is_object_row row) }
{}
