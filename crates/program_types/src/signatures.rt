//! Descriptors of methods, which are read parameter by parameter.
ghost use Rattle.std.specs.Prelude.{◌≡◌, ◌∷◌, [], false, IfSome, IfNone, length};
ghost use Rattle.program_model.specs.Types.{Signature, parameter_types, result_type};
ghost use Rattle.program_model.specs.Types.{signature_from, signature_of, with_parameters};
ghost use Rattle.program_types.specs.Signatures.{IsShorter, signature_at};

use crate::types::{ARRAY_MARK, CLASS_MARK};
use std::marker::Model;

// What the parameters end with.
const CLOSING: u16 = b')' as u16;

// What a class's descriptor ends with.
const NAME_END: u16 = b';' as u16;

// What stands at the front: a parameter's type and what is left behind it, or the result's type.
#[derive(Clone, Copy)]
enum Front<'a> {
    Parameter(&'a [u16], &'a [u16]),
    Result(&'a [u16]),
}

// A type that is not whole at the end is no parameter, and the result is then empty.
fn front_of(units: &[u16]) -> Front<'_>
    ensures signature { signature_from [] false units.now ≡ signature_at result }
    ensures shorter { IsShorter result units.now }
{
    let mut in_name = false;
    for (place, unit) in units.iter().enumerate() {
        if in_name {
            if *unit == NAME_END {
                return Front::Parameter(&units[..place + 1], &units[place + 1..]);
            }
        } else if *unit == CLOSING {
            return Front::Result(&units[place + 1..]);
        } else if *unit == CLASS_MARK {
            in_name = true;
        } else if *unit != ARRAY_MARK {
            return Front::Parameter(&units[..place + 1], &units[place + 1..]);
        }
    }
    Front::Result(&[])
}

/// The types of the parameters that are still to come, and of the result behind them.
#[derive(Drop)]
pub struct Parameters<'a> {
    rest: &'a [u16],
}

impl<'a> Model for Parameters<'a> {
    ghost use Rattle.std.specs.Prelude.{[], false};
    ghost use Rattle.program_model.specs.Types.{Signature, signature_from};

    ghost Value = { Signature };

    ghost view = { λ a. signature_from [] false a.rest.now };
}

impl<'a> Parameters<'a> {
    /// All of a method's descriptor. Takes no memory, as all of these.
    #[tactic(auto, unfolding(program_model::specs::Types::signature_of, program_model::specs::Types::signature_from))]
    pub fn of(descriptor: &'a [u16]) -> Parameters<'a>
        ensures { result ≡ signature_of descriptor.now }
    {
        match descriptor {
            [] => Parameters { rest: &[] },
            [_, rest @ ..] => Parameters { rest },
        }
    }

    /// Takes the next parameter's type, if there is one.
    pub fn next(&mut self) -> Option<&'a [u16]>
        ensures taken { IfSome result
            (λ kind. self.old ≡ with_parameters (kind.now ∷ []) self.new) }
        ensures none_left { IfNone result (self.old.parameters ≡ []) }
        ensures unchanged { IfNone result (self.new ≡ self.old) }
    {
        match front_of(self.rest) {
            Front::Parameter(kind, rest) => {
                self.rest = rest;
                Some(kind)
            }
            Front::Result(_) => None,
        }
    }

    /// How many are to come.
    pub fn count(&self) -> usize
        ensures { result ≡ length self.now.parameters }
    {
        let mut rest = self.rest;
        let mut count = 0;
        while let Front::Parameter(_, behind) = front_of(rest) {
            rest = behind;
            count += 1;
        }
        count
    }

    /// The type of the result.
    pub fn result(&self) -> &'a [u16]
        ensures { result.now ≡ self.now.result }
    {
        let mut rest = self.rest;
        loop {
            match front_of(rest) {
                Front::Parameter(_, behind) => rest = behind,
                Front::Result(kind) => return kind,
            }
        }
    }
}

/// How many parameters a method has.
#[tactic(auto, unfolding(program_model::specs::Types::parameter_types))]
pub fn parameter_count(descriptor: &[u16]) -> usize
    ensures { result ≡ length (parameter_types descriptor.now) }
{
    Parameters::of(descriptor).count()
}

/// The type of a method's result.
#[tactic(auto, unfolding(program_model::specs::Types::result_type))]
pub fn result_type(descriptor: &[u16]) -> &[u16]
    ensures { result.now ≡ result_type descriptor.now }
{
    Parameters::of(descriptor).result()
}
