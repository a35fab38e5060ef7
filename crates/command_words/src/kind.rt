//! Which commands there are, by their names.
ghost use Rattle.std.specs.Prelude.{◌≡◌};
ghost use Rattle.command_words.specs.{Kinds.name_of, Texts.Finds};

/// Which command it is.
#[derive(Clone, Copy, Drop)]
pub enum Kind {
    Cut,
    Apply,
    Gen,
    Trial,
    Play,
    Path,
    Hunt,
    Audit,
}

// The command of this name.
pub(crate) fn kind_named(name: &str) -> Option<Kind>
    ensures { Finds (λ kind. name_of kind ≡ name.now) result }
{
    match name {
        "cut" => Some(Kind::Cut),
        "apply" => Some(Kind::Apply),
        "gen" => Some(Kind::Gen),
        "trial" => Some(Kind::Trial),
        "play" => Some(Kind::Play),
        "path" => Some(Kind::Path),
        "hunt" => Some(Kind::Hunt),
        "audit" => Some(Kind::Audit),
        _ => None,
    }
}
