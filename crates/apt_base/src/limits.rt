// Limits that several crates keep.

/// The bytes of one `.java` file.
pub const MAX_FILE_BYTES: usize = 8_388_608;

/// The bytes of the canonical name of a type or a package.
pub const MAX_NAME_BYTES: usize = 1024;

/// The children of one element, the implicit ones included.
pub const MAX_CHILDREN: usize = 65_535;

/// The nested types, lists of type arguments and values that are open at once, counted together.
pub const MAX_DEPTH: usize = 200;

/// The processors of a project.
pub const MAX_PROCESSORS: usize = 64;

/// The steps that a question on types goes: each to a supertype, to a bound, or into an argument.
pub const MAX_TYPE_STEPS: u32 = 64;
