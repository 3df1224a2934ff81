//! Laws of the systems that class files link to. Each function answers nothing and promises the
//! law.

ghost use Rattle.program_model.specs.DistinctNames.{HasDistinctNames};
ghost use Rattle.link_model.specs.LinkFaults.{IsLinked};
ghost use Rattle.link_laws.specs.Arrays.{ArraysHold};
ghost use Rattle.link_laws.specs.Meanings.{ConstantsFit};
ghost use Rattle.link_laws.specs.Methods.{MethodsHold, StartsHold};
ghost use Rattle.link_laws.specs.Supers.{InterfacesHold, ListsHold, SupersHold};

use jx_base::{ClassFile, Listed, Plan, System};

/// No two classes, selectors or templates are named alike, and names are of units of sixteen bits.
pub fn names_differ(plan: &Plan, files: &Listed<ClassFile>, system: &System)
    requires { IsLinked plan.now files.now system.now }
    ensures { HasDistinctNames system.now }
{}

/// Each constant that an instruction or a catch type uses means what the use takes.
pub fn constants_fit(plan: &Plan, files: &Listed<ClassFile>, system: &System)
    requires { IsLinked plan.now files.now system.now }
    ensures { ConstantsFit system.now }
{}

/// The supers of each class lead up to java/lang/Object, each once, and its layout begins with its
/// parent's.
pub fn supers_hold(plan: &Plan, files: &Listed<ClassFile>, system: &System)
    requires { IsLinked plan.now files.now system.now }
    ensures { SupersHold system.now }
{}

/// The ways from a class up through its interfaces and its parent end.
pub fn interfaces_hold(plan: &Plan, files: &Listed<ClassFile>, system: &System)
    requires { IsLinked plan.now files.now system.now }
    ensures { InterfacesHold system.now }
{}

/// The classes and selectors of methods are there, and their instructions are those of their code.
pub fn methods_hold(plan: &Plan, files: &Listed<ClassFile>, system: &System)
    requires { IsLinked plan.now files.now system.now }
    ensures { MethodsHold system.now }
{}

/// A domain of each template starts with methods that have code, of which one is its main method.
pub fn starts_hold(plan: &Plan, files: &Listed<ClassFile>, system: &System)
    requires { IsLinked plan.now files.now system.now }
    ensures { StartsHold system.now }
{}

/// The elements of arrays are of types of the system, which has the array classes that code makes.
pub fn arrays_hold(plan: &Plan, files: &Listed<ClassFile>, system: &System)
    requires { IsLinked plan.now files.now system.now }
    ensures { ArraysHold system.now }
{}

/// The classes of a template's list have their supers and interfaces in that list, or built in.
pub fn lists_hold(plan: &Plan, files: &Listed<ClassFile>, system: &System)
    requires { IsLinked plan.now files.now system.now }
    ensures { ListsHold system.now }
{}
