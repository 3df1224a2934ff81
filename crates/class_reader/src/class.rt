//! A whole class file (JVMS 4.1).
ghost use Rattle.std.specs.Prelude.{◌≡◌, ◌≤◌, ◌-◌, ◌^◌, ℕ, [], ◌∷◌, length, IfOk, IfErr};
ghost use Rattle.class_reader.specs.Classes.{version, heading, IsFaultOf, IsReadAs, IsRefusedFor};
ghost use Rattle.jx_base.specs.Answers.{Gives};
ghost use Rattle.class_grammar.specs.ClassGrammar.{version_part, interface_part, heading_part};
ghost use Rattle.class_grammar.specs.ClassGrammar.{class_file_part, IsClassFile, IsClassFault};
ghost use Rattle.class_grammar.specs.Constants.{class_fault};
ghost use Rattle.class_grammar.specs.Parts.{at_end, repeated};
ghost use Rattle.jx_base.specs.declared.class_file.ClassFile.{ClassFile};
ghost use Rattle.jx_base.specs.declared.fault.ClassKind.{ClassKind};

use crate::error::{ReadFault, bad, cut_off};
use crate::members::{fields_at, methods_at};
use crate::names::{class_index_at, skip_attributes};
use crate::pool::pool_at;
use class_grammar::{is_interface_flag, place, u16_at, u32_at};
use jx_base::{ClassFile, ClassKind, Constant, Listed};
use std::alloc::Global;

// The minor and the major version, which are behind the magic number.
#[tactic(auto, unfolding(class_grammar::specs::ClassGrammar::version_part))]
fn version_at(size: u32, bytes: &[u8]) -> Result<(u16, u16, &[u8]), ReadFault>
    ensures read { Gives (λ x. (version x.0 x.1, x.2.now)) result
        ((version_part size).reads bytes.now) }
    ensures shorter { IfOk result (λ x. length x.2.now ≤ length bytes.now) }
{
    let (magic, rest) = u32_at(cut_off(size), bytes)?;
    if magic != 0xcafebabe {
        return Err(bad(0, ClassKind::Magic));
    }
    let (minor, rest) = u16_at(cut_off(size), rest)?;
    let (major, rest) = u16_at(cut_off(size), rest)?;
    if major < 45 || major > 52 {
        return Err(bad(6, ClassKind::Version));
    }
    Ok((minor, major, rest))
}

// What stands behind the constants, up to the interfaces.
#[derive(Drop)]
struct Heading {
    flags: u16,
    this_class: u16,
    super_class: u16,
    interfaces: Listed<u16>,
}

#[tactic(auto, using(crate::proofs::Fronts::fronts))]
fn interfaces_at<'b>(
    alloc: Global,
    size: u32,
    constants: &[Constant],
    count: u16,
    bytes: &'b [u8],
) -> Result<(Listed<u16>, &'b [u8]), ReadFault>
    requires { length bytes.now ≤ size }
    ensures read { Gives (λ x. (x.0, x.1.now)) result
        ((repeated count (interface_part size constants.now)).reads bytes.now) }
    ensures shorter { IfOk result (λ x. length x.1.now ≤ length bytes.now) }
{
    let mut interfaces = Vec::new(alloc);
    let mut rest = bytes;
    for _ in 0..count {
        let (interface, after) = class_index_at(size, constants, rest)?;
        interfaces.push(interface)?;
        rest = after;
    }
    Ok((Listed::from_vec(interfaces), rest))
}

#[tactic(auto, unfolding(class_grammar::specs::ClassGrammar::heading_part))]
fn heading_at<'b>(
    alloc: Global,
    size: u32,
    constants: &[Constant],
    bytes: &'b [u8],
) -> Result<(Heading, &'b [u8]), ReadFault>
    requires { length bytes.now ≤ size }
    ensures read { Gives (λ x. (heading x.0, x.1.now)) result
        ((heading_part size constants.now).reads bytes.now) }
    ensures shorter { IfOk result (λ x. length x.1.now ≤ length bytes.now) }
{
    let (flags, rest) = u16_at(cut_off(size), bytes)?;
    let (this_class, rest) = class_index_at(size, constants, rest)?;
    let (super_class, rest) = class_index_at(size, constants, rest)?;
    let (count, rest) = u16_at(cut_off(size), rest)?;
    let (interfaces, rest) = interfaces_at(alloc, size, constants, count, rest)?;
    let heading = Heading {
        flags,
        this_class,
        super_class,
        interfaces,
    };
    Ok((heading, rest))
}

// Nothing is left.
#[tactic(auto, using(crate::proofs::Ends::ends))]
fn ends_at(size: u32, bytes: &[u8]) -> Result<(), ReadFault>
    requires { length bytes.now ≤ size }
    ensures { Gives (λ _. (tt, [])) result
        ((at_end (class_fault (size - length bytes.now) ClassKind.Trailing)).reads bytes.now) }
{
    if bytes.is_empty() {
        Ok(())
    } else {
        Err(bad(place(size, bytes), ClassKind::Trailing))
    }
}

#[tactic(auto, unfolding(class_grammar::specs::ClassGrammar::class_file_part, class_grammar::specs::ClassGrammar::fields_part, class_grammar::specs::ClassGrammar::methods_part))]
fn class_at(alloc: Global, size: u32, bytes: &[u8]) -> Result<ClassFile, ReadFault>
    requires fits { length bytes.now ≤ size }
    requires small { size ≤ 2 ^ 31 }
    ensures { Gives (λ file. (file, [])) result ((class_file_part size).reads bytes.now) }
{
    let (minor, major, rest) = version_at(size, bytes)?;
    let (constants, rest) = pool_at(alloc, size, rest)?;
    let (heading, rest) = heading_at(alloc, size, constants.as_slice(), rest)?;
    let (count, rest) = u16_at(cut_off(size), rest)?;
    let (fields, rest) = fields_at(alloc, size, constants.as_slice(), count, rest)?;
    let interface = is_interface_flag(heading.flags);
    let (count, rest) = u16_at(cut_off(size), rest)?;
    let (methods, rest) = methods_at(alloc, size, constants.as_slice(), interface, count, rest)?;
    let rest = skip_attributes(size, cut_off(size), constants.as_slice(), rest)?;
    ends_at(size, rest)?;
    let Heading {
        flags,
        this_class,
        super_class,
        interfaces,
    } = heading;
    Ok(ClassFile {
        minor,
        major,
        constants,
        flags,
        this_class,
        super_class,
        interfaces,
        fields,
        methods,
    })
}

/// The class file that the bytes are, or their first fault (JVMS 4.1). A file of a version from 45
/// to 52 is read whole, where our profile has all of it.
pub fn read_class(alloc: Global, bytes: &[u8]) -> Result<ClassFile, ReadFault>
    requires { length bytes.now ≤ 2 ^ 31 }
    ensures found { IfOk result (IsClassFile bytes.now) }
    ensures fault { IfErr result (IsFaultOf bytes.now) }
    ensures only { (file : ClassFile) → IsClassFile bytes.now file → IsReadAs file result }
    ensures only_fault { (at : ℕ) (kind : ClassKind) → IsClassFault bytes.now at kind
        → IsRefusedFor at kind result }
{
    class_at(alloc, bytes.len() as u32, bytes)
}
