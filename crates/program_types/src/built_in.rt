//! The numbers of built-in classes, which are the same in every system.

use jx_base::ClassId;

/// How many there are; they are the first ones.
pub const BUILT_IN_COUNT: usize = 27;

/// java/lang/String
pub const STRING: ClassId = ClassId(1);

/// java/lang/StringBuilder
pub const BUILDER: ClassId = ClassId(2);

/// java/lang/Throwable
pub const THROWABLE: ClassId = ClassId(3);

/// java/lang/ArithmeticException
pub const ARITHMETIC_EXCEPTION: ClassId = ClassId(6);

/// java/lang/NullPointerException
pub const NULL_POINTER_EXCEPTION: ClassId = ClassId(7);

/// java/lang/ArrayIndexOutOfBoundsException
pub const ARRAY_INDEX_EXCEPTION: ClassId = ClassId(9);

/// java/lang/StringIndexOutOfBoundsException
pub const STRING_INDEX_EXCEPTION: ClassId = ClassId(10);

/// java/lang/NegativeArraySizeException
pub const NEGATIVE_SIZE_EXCEPTION: ClassId = ClassId(11);

/// java/lang/ClassCastException
pub const CLASS_CAST_EXCEPTION: ClassId = ClassId(12);

/// java/lang/ArrayStoreException
pub const ARRAY_STORE_EXCEPTION: ClassId = ClassId(13);

/// java/lang/StackOverflowError
pub const STACK_OVERFLOW_ERROR: ClassId = ClassId(17);

/// jx/Portal
pub const PORTAL: ClassId = ClassId(18);

/// jx/Zero
pub const ZERO: ClassId = ClassId(19);

/// jx/Memory
pub const MEMORY: ClassId = ClassId(20);

/// jx/CopyException
pub const COPY_EXCEPTION: ClassId = ClassId(21);

/// jx/RangeException
pub const RANGE_EXCEPTION: ClassId = ClassId(25);
