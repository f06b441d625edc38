//! The texts that the tools print besides variables, each once.

/// Standard error if the bytes read are no image: their length is not one of an image.
pub(crate) const BAD_LENGTH: &[u8] = b"## Error: bad image: BadLength\n";

/// The checksum is wrong.
pub(crate) const BAD_CHECKSUM: &[u8] = b"## Error: bad image: BadCrc\n";

/// The list of entries is not ended.
pub(crate) const UNTERMINATED: &[u8] = b"## Error: bad image: Unterminated\n";

/// Before and after the name of a variable that is not there.
pub(crate) const ERROR_QUOTE: &[u8] = b"## Error: \"";

pub(crate) const NOT_DEFINED: &[u8] = b"\" not defined\n";

/// Standard error if `-n` has no name, or several.
pub(crate) const ONE_NAME: &[u8] = b"## Error: -n takes exactly one name\n";

/// Before a name that can not be exported.
pub(crate) const CANNOT_EXPORT: &[u8] = b"## Error: can't export \"";

/// After that name.
pub(crate) const QUOTE: &[u8] = b"\"\n";

/// Before and after the number of entries that an import refused.
pub(crate) const ERROR: &[u8] = b"## Error: ";

pub(crate) const ENTRIES_REFUSED: &[u8] = b" entries refused\n";

/// Standard error if the text of a restore has no entry.
pub(crate) const NO_ENTRY: &[u8] = b"## Error: the text has no entry, and nothing is restored\n";

/// Between the name of an entry that an import or a restore refuses and the number of its line.
pub(crate) const QUOTE_IN_LINE: &[u8] = b"\" in line ";

pub(crate) const NEWLINE: &[u8] = b"\n";

/// Standard error if memory ran out.
pub const OUT_OF_MEMORY: &[u8] = b"## Error: out of memory\n";
