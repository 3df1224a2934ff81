//! The methods of java/lang/Object and of the classes that can be thrown.
ghost use Rattle.std.specs.Prelude.{◌≡◌};
ghost use Rattle.interp_built_in.specs.Answers.{Answers, Does};
ghost use Rattle.interp_core.specs.Cores.{store_of};
ghost use Rattle.machine_model.specs.BuiltInMethods as Spec;

use crate::answer::BuiltInAnswer;
use interp_core::{Core, cells_of, put_cell};
use interp_num::is_same;
use jx_base::Value;

/// true as 1, false as 0
#[tactic(auto, unfolding(machine_model::specs::BuiltInMethods::int_of_bool))]
pub fn int_of_bool(value: bool) -> Value
    ensures { result ≡ Spec.int_of_bool value }
{
    Value::Int(i32::from(value))
}

/// Whether both arguments are the same object.
#[tactic(auto, unfolding(machine_model::specs::BuiltInMethods::identity_test, machine_model::specs::BuiltInMethods::result_value))]
pub fn compare(core: &Core, arguments: &[Value]) -> BuiltInAnswer
    ensures { Answers Spec.identity_test arguments.now (store_of core.now) result }
{
    match arguments {
        [a, b] => BuiltInAnswer::Gives(Some(int_of_bool(is_same(*a, *b)))),
        _ => BuiltInAnswer::Unfit,
    }
}

/// Sets the message of an object that can be thrown.
#[tactic(auto, unfolding(machine_model::specs::BuiltInMethods::message_constructor))]
pub fn set_message(core: &mut Core, arguments: &[Value]) -> BuiltInAnswer
    ensures outcome { Does Spec.message_constructor arguments.now
        (store_of core.old) (store_of core.new) result }
    ensures frames { core.new.frames ≡ core.old.frames }
{
    match arguments {
        [Value::Ref(object), message] => {
            put_cell(core, *object, 0, *message);
            BuiltInAnswer::Gives(None)
        }
        _ => BuiltInAnswer::Unfit,
    }
}

/// The first cell of an object, where it has one.
#[tactic(auto, unfolding(machine_model::specs::BuiltInMethods::first_cell))]
pub fn first_cell(core: &Core, arguments: &[Value]) -> BuiltInAnswer
    ensures { Answers Spec.first_cell arguments.now (store_of core.now) result }
{
    match arguments {
        [Value::Ref(object)] => BuiltInAnswer::Gives(cells_of(core, *object).first().copied()),
        _ => BuiltInAnswer::Unfit,
    }
}
