//! Objects by their classes (JVMS 6.5, new, checkcast, instanceof, athrow).
ghost use Rattle.std.specs.Prelude.{◌≡◌};
ghost use Rattle.std.specs.Option.{option_map};
ghost use Rattle.machine_model.specs.BuiltInMethods.{int_of_bool};
ghost use Rattle.machine_model.specs.ObjectRows as Spec;
ghost use Rattle.machine_model.specs.State.{default_cells};
ghost use Rattle.interp_core.specs.Cores.{IsRunnable, core_state, store_of};
ghost use Rattle.interp_core.specs.Making.{contents_cells};
ghost use Rattle.interp_access.specs.Rows.{Runs};

use crate::arrays::new_reference_array_row;
use crate::fields::is_object_of;
use crate::leaving::leave_new;
use crate::nested::multi_array_row;
use crate::taking::{Receiver, kind_at, receiver_at};
use interp_core::{Contents, Core, ObjStep, leave, make_object, shape_of};
use interp_num::{index_operand, is_null};
use jx_base::{ClassId, Instr, Kind, Row, System, Value};
use program_types::{CLASS_CAST_EXCEPTION, NULL_POINTER_EXCEPTION, THROWABLE, shape_fits_class};

// The fields of an object of the class.
#[tactic(auto, unfolding(machine_model::specs::State::default_cells, program_model::specs::Lookup::class_at))]
fn contents_of(system: &System, class: u32) -> Contents<'_>
    ensures { contents_cells result ≡ default_cells system.now class }
{
    match system.program.classes.as_slice().get(class as usize) {
        Some(found) => Contents::Defaults(found.fields.as_slice()),
        None => Contents::Defaults(&[]),
    }
}

/// Pushes a new object with the default of each field.
pub fn new_row(system: &System, core: &mut Core, class: u32) -> ObjStep
    requires { IsRunnable system.now (core_state core.old) }
    ensures { Runs result core.old core.new (λ state. Spec.new_row system.now state class) }
{
    let made = make_object(core, ClassId(class), contents_of(system, class));
    leave_new(system, core, 0, made)
}

// Whether the value fits the class, by the rules that hold everywhere.
#[tactic(auto, unfolding(machine_model::specs::ObjectRows::fits_class))]
fn fits_class(system: &System, core: &Core, value: Value, class: u32) -> bool
    ensures { result ≡ Spec.fits_class system.now (store_of core.now) value class }
{
    shape_fits_class(system, false, shape_of(core, value), class as usize)
}

/// The value on the top stays where it fits the class.
#[tactic(auto, using(crate::proofs::RowForms::check_is, crate::proofs::Tops::gives_left), unfolding(machine_model::specs::ObjectRows::given, machine_model::specs::ObjectRows::with_result, program_model::specs::BuiltIn::class_cast_exception))]
pub fn check_row(system: &System, core: &mut Core, class: u32) -> ObjStep
    requires { IsRunnable system.now (core_state core.old) }
    ensures { Runs result core.old core.new (λ state. Spec.check_row system.now state class) }
{
    let Some(value) = kind_at(core, 0, Kind::Reference) else {
        return ObjStep::BadCode;
    };
    if fits_class(system, core, value, class) {
        leave(system, core, 1, Some(value))
    } else {
        ObjStep::Raise(CLASS_CAST_EXCEPTION)
    }
}

// A bool as an int.
#[tactic(auto, unfolding(machine_model::specs::BuiltInMethods::int_of_bool))]
fn int_of_bool(test: bool) -> Value
    ensures { result ≡ int_of_bool test }
{
    Value::Int(i32::from(test))
}

/// Takes a value, and pushes 1 where it is not null and fits the class, else 0.
#[tactic(auto, using(crate::proofs::RowForms::instance_is, crate::proofs::Tops::gives_left), unfolding(machine_model::specs::ObjectRows::given, machine_model::specs::ObjectRows::with_result))]
pub fn instance_row(system: &System, core: &mut Core, class: u32) -> ObjStep
    requires { IsRunnable system.now (core_state core.old) }
    ensures { Runs result core.old core.new (λ state. Spec.instance_row system.now state class) }
{
    let Some(value) = kind_at(core, 0, Kind::Reference) else {
        return ObjStep::BadCode;
    };
    let fits = !is_null(value) && fits_class(system, core, value, class);
    leave(system, core, 1, Some(int_of_bool(fits)))
}

/// Throws an object of a Throwable class.
#[tactic(auto, using(crate::proofs::RowForms::throw_is), unfolding(program_model::specs::BuiltIn::throwable_class, program_model::specs::BuiltIn::null_pointer_exception))]
pub fn throw_row(system: &System, core: &mut Core) -> ObjStep
    requires { IsRunnable system.now (core_state core.old) }
    ensures { Runs result core.old core.new (Spec.throw_row system.now) }
{
    match receiver_at(core, 0) {
        Receiver::Null => ObjStep::Raise(NULL_POINTER_EXCEPTION),
        Receiver::Object(object) => {
            if is_object_of(system, core, THROWABLE.0, object) {
                ObjStep::Raised(object)
            } else {
                ObjStep::BadCode
            }
        }
        Receiver::Other => ObjStep::BadCode,
    }
}

// The name of a class.
#[tactic(auto, unfolding(machine_model::specs::ObjectRows::name_of_class, program_model::specs::Lookup::class_at))]
fn name_of_class(system: &System, class: u32) -> Option<&[u16]>
    ensures { option_map (λ x. x.now) result ≡ Spec.name_of_class system.now class }
{
    match system.program.classes.as_slice().get(class as usize) {
        Some(found) => Some(found.name.as_slice()),
        None => None,
    }
}

/// Runs the row of a class or an array, at the class that the instruction's constant is.
#[tactic(auto, unfolding(machine_model::specs::ObjectRows::class_row, machine_model::specs::ObjectRows::given, machine_model::specs::ObjectRows::type_of, machine_model::specs::ObjectRows::name_of_class))]
pub fn class_row(system: &System, core: &mut Core, row: Row, instr: &Instr, class: u32) -> ObjStep
    requires { IsRunnable system.now (core_state core.old) }
    ensures { Runs result core.old core.new
        (λ state. Spec.class_row system.now state row instr.now class) }
{
    match row {
        Row::New => new_row(system, core, class),
        Row::NewReferenceArray => match name_of_class(system, class) {
            Some(name) => new_reference_array_row(system, core, name),
            None => ObjStep::BadCode,
        },
        Row::NewMultiArray => match name_of_class(system, class) {
            Some(name) => multi_array_row(system, core, name, index_operand(instr, 1)),
            None => ObjStep::BadCode,
        },
        Row::CheckCast => check_row(system, core, class),
        Row::InstanceOf => instance_row(system, core, class),
        _ => ObjStep::BadCode,
    }
}
