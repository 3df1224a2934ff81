//! The places of the built-in classes that others are below, or that declare a field.

use jx_base::ClassId;

pub const OBJECT: ClassId = ClassId(0);

pub const BUILDER: ClassId = ClassId(2);

pub const THROWABLE: ClassId = ClassId(3);

pub const EXCEPTION: ClassId = ClassId(4);

pub const RUNTIME_EXCEPTION: ClassId = ClassId(5);

pub const INDEX_EXCEPTION: ClassId = ClassId(8);

pub const ERROR: ClassId = ClassId(14);

pub const MACHINE_ERROR: ClassId = ClassId(15);
