//! All limits of the product, each a number that this project chose.
//!
//! A limit is the greatest number that is still taken, unless its name begins with `LEAST`.
#![tactic(auto)]

// Files.

/// Bytes of an executable's file.
pub const MOST_IMAGE_BYTES: u32 = 33_554_432;
/// Bytes of a layout's text.
pub const MOST_LAYOUT_BYTES: u32 = 8_388_608;
/// Bytes of the text of replies.
pub const MOST_REPLIES_BYTES: u32 = 8_388_608;
/// Bytes of one dump's text.
pub const MOST_DUMP_BYTES: u32 = 8_388_608;
/// Bytes of the texts of all dumps of a program.
pub const MOST_DUMPS_BYTES: u32 = 67_108_864;

// Executables.

/// Program headers.
pub const MOST_PROGRAM_HEADERS: u16 = 256;
/// Bytes in memory of all PT_LOAD headers.
pub const MOST_LOADED_BYTES: u32 = 67_108_864;

// Programs and their units.

/// Units of a program.
pub const MOST_UNITS: u32 = 512;
/// Functions of a unit.
pub const MOST_FUNCTIONS: u32 = 65_536;
/// Variables of a unit.
pub const MOST_VARIABLES: u32 = 65_536;
/// Externals of a unit.
pub const MOST_EXTERNALS: u32 = 65_536;
/// Bytes of a name.
pub const MOST_NAME_BYTES: u32 = 255;
/// Instructions of a function.
pub const MOST_INSTRUCTIONS: u32 = 65_536;
/// Labels of a jump table.
pub const MOST_LABELS: u32 = 65_536;
/// The least bytes of a frame.
pub const LEAST_FRAME_BYTES: u32 = 16;
/// Bytes of a frame.
pub const MOST_FRAME_BYTES: u32 = 1_048_576;
/// Items of a variable's initial data.
pub const MOST_INIT_ITEMS: u32 = 65_536;
/// Bytes of a variable.
pub const MOST_VARIABLE_BYTES: u32 = 16_777_216;
/// Bytes of all variables of a program.
pub const MOST_PROGRAM_VARIABLE_BYTES: u32 = 67_108_864;

// Calls of externals.

/// Buffers of a signature.
pub const MOST_BUFFERS: u32 = 8;
/// Bytes of one buffer of a call.
pub const MOST_BUFFER_BYTES: u32 = 65_536;
/// Bytes of all buffers of a call.
pub const MOST_CALL_BYTES: u32 = MOST_BUFFERS * MOST_BUFFER_BYTES;
/// Bytes that the calls of a trace read from buffers.
pub const MOST_TRACE_BYTES: u32 = 16_777_216;
/// Replies of a file.
pub const MOST_REPLIES: u32 = 65_536;

// Layouts.

/// Areas of a layout.
pub const MOST_AREAS: u32 = 1_024;
/// Foreign ranges of a layout.
pub const MOST_FOREIGN_RANGES: u32 = 1_024;
/// Pins of a layout.
pub const MOST_PINS: u32 = 65_536;
/// The least bytes of the stack.
pub const LEAST_STACK_BYTES: u32 = 16;
/// Bytes of the stack.
pub const MOST_STACK_BYTES: u32 = 16_777_216;
/// The greatest end of an area, a foreign range or the stack.
pub const MOST_RANGE_END: u32 = 0xffff_fff0;

// Machines.

/// Blocks of the abstract assembly's memory that are ever made.
pub const MOST_BLOCKS: u32 = 4_000_000_000;
/// Frames that a run of the abstract assembly ever makes.
pub const MOST_FRAMES: u32 = 2_000_000_000;

// The words of a command.

/// Steps of the abstract assembly in a run.
pub const MOST_STEPS: u32 = 1_000_000;
/// Steps of the machine of an image for each step of the abstract assembly.
pub const IMAGE_STEPS_A_STEP: u32 = 5;
/// Words that are shown of an image.
pub const MOST_SHOWN_WORDS: u32 = 65_536;
/// Units that are made, and so their functions.
pub const MOST_MADE_UNITS: u32 = 4_096;
