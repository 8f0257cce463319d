// Texts cut in two.
ghost use Rattle.std.specs.Prelude.{◌≡◌, ◌<◌};
ghost use Rattle.raml_syntax.specs.Cut.{lent_parts, cut_at};
ghost use Rattle.bound_file.specs.Reading.{lent, behind_space, before_space};

/// What stands before the first such character of a text, and behind it. The character is of ASCII.
pub fn cut_at<'a>(text: &'a str, mark: char) -> Option<(&'a str, &'a str)>
    requires { mark < 128 }
    ensures { lent_parts result ≡ cut_at mark text.now }
{
    text.split_once(mark)
}

/// The text behind a space.
pub fn behind_space<'a>(text: &'a str) -> Option<&'a str>
    ensures { lent result ≡ behind_space text.now }
{
    text.strip_prefix(' ')
}

/// The text before a space.
pub fn before_space<'a>(text: &'a str) -> Option<&'a str>
    ensures { lent result ≡ before_space text.now }
{
    text.strip_suffix(' ')
}
