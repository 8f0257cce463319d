// The lines that are the same each time.
ghost use Rattle.std.specs.Prelude.{◌≡◌};
ghost use Rattle.refusal_text.specs.Plain.{usage_line, unread_line, too_long_line, no_function_line, write_failed_line, no_memory_line};

/// A file that a call reads.
#[derive(Clone, Copy, Debug, PartialEq, Eq)]
pub enum Which {
    Program,
    Data,
    Certificate,
    Prices,
    /// Declared bounds.
    Bounds,
    /// The program that another is compared with.
    Other,
}

/// The words are refused.
pub fn usage_line() -> &'static str
    ensures { result.now ≡ usage_line }
{
    "raml: usage\n"
}

/// The file was not read.
pub fn unread_line(which: Which) -> &'static str
    ensures { result.now ≡ unread_line which }
{
    match which {
        Which::Program => "raml: cannot read program\n",
        Which::Data => "raml: cannot read data\n",
        Which::Certificate => "raml: cannot read certificate\n",
        Which::Prices => "raml: cannot read prices\n",
        Which::Bounds => "raml: cannot read bounds\n",
        Which::Other => "raml: cannot read other\n",
    }
}

/// The file has too many bytes.
pub fn too_long_line(which: Which) -> &'static str
    ensures { result.now ≡ too_long_line which }
{
    match which {
        Which::Program => "raml: too long: program\n",
        Which::Data => "raml: too long: data\n",
        Which::Certificate => "raml: too long: certificate\n",
        Which::Prices => "raml: too long: prices\n",
        Which::Bounds => "raml: too long: bounds\n",
        Which::Other => "raml: too long: other\n",
    }
}

/// The program has no function of the name.
pub fn no_function_line() -> &'static str
    ensures { result.now ≡ no_function_line }
{
    "raml: no function\n"
}

/// Some of the report was not written.
pub fn write_failed_line() -> &'static str
    ensures { result.now ≡ write_failed_line }
{
    "raml: write failed\n"
}

/// Memory is wanting.
pub fn no_memory_line() -> &'static str
    ensures { result.now ≡ no_memory_line }
{
    "raml: out of memory\n"
}
