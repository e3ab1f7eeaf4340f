//! Why a text is no value of a type.

use eds_base::Path;

/// Why a text stands for no value of a type.
#[derive(Drop)]
pub enum ValueFail {
    /// The text is no JSON.
    NotJson,
    /// The JSON at the path isn't of the shape that the type there has: the first such place.
    WrongShape(Path),
}
