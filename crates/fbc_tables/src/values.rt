//! Page sizes and values, read from words.

ghost use Rattle.std.specs.Prelude.{IfOk};
ghost use Rattle.fbc_kinds.specs.Limits.{IsPageSize};

use fbc_kinds::Value;
use fbc_samples::Fault;

/// The size of pages.
pub fn page_size(word: &str) -> Result<u32, Fault>
    ensures { IfOk result IsPageSize }
{
    match word {
        "1024" => Ok(1024),
        "2048" => Ok(2048),
        "4096" => Ok(4096),
        "8192" => Ok(8192),
        "16384" => Ok(16384),
        _ => Err(Fault::Unreadable),
    }
}

/// The value of a word; `''` is the empty one.
pub fn value_of(word: &str) -> Result<Value, Fault> {
    match word {
        "''" => Ok(Value::new(b"")),
        _ if word.len() <= 200 => Ok(Value::new(word.as_bytes())),
        _ => Err(Fault::Unreadable),
    }
}
