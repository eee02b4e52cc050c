// The lints and severities by their numbers, and settings: the severity of each lint, and whether its findings are shown. An override is one word,
// 256 × lint + severity.
ghost use Rattle.std.specs.Prelude.{◌≡◌, false, map, leb, MatchResult};
ghost use Rattle.names.specs.Name.{between};
ghost use Rattle.lints.specs.Lint.{lint_number, last_lint, allow, own_severity};
ghost use Rattle.lints.specs.Levels.{override_from, overrides_allowed, settings_allowed, override_of, severity_of, is_shown};
ghost use Rattle.lints.specs.Code.Overrides.{lint_meant, severity_number, settings_meant, override_allowed, level_from};

// A lint. `lint_meant` of specs/Code/Overrides.antt gives it.
#[derive(Clone, Copy, PartialEq, Eq, Debug)]
pub enum Lint {
    Dead,
    Recognition,
    Builtin,
    Open,
}

// A severity, from the gravest on. `severity_number` of specs/Code/Overrides.antt numbers them from 0.
#[derive(Clone, Copy, PartialEq, Eq, Debug)]
pub enum Severity {
    Error,
    Deny,
    Warn,
    Allow,
}

// A number that no lint has, or no severity.
#[derive(Clone, Copy, PartialEq, Eq, Debug)]
pub struct UnknownNumber(pub u32);

// Document 01's number of a lint.
// Lints are numbered from 1 and severities from 0, each as its definition says, so that each has a `From` and a `TryFrom` of its own.
impl From<Lint> for u32 {
    ghost from_gives = { λ lint number. number ≡ lint_number (lint_meant lint) };

    fn from(lint: Lint) -> u32 {
        match lint {
            Lint::Dead => 1,
            Lint::Recognition => 2,
            Lint::Builtin => 3,
            Lint::Open => 4,
        }
    }
}

// The lint of a number.
impl TryFrom<u32> for Lint {
    type Error = UnknownNumber;

    ghost try_from_gives = { λ number r. MatchResult r (λ lint. lint_number (lint_meant lint) ≡ number) (λ e. (e.0 ≡ number) × (between 1 last_lint number ≡ false)) };

    fn try_from(number: u32) -> Result<Lint, UnknownNumber> {
        match number {
            1 => Ok(Lint::Dead),
            2 => Ok(Lint::Recognition),
            3 => Ok(Lint::Builtin),
            4 => Ok(Lint::Open),
            _ => Err(UnknownNumber(number)),
        }
    }
}

// Document 01's number of a severity.
impl From<Severity> for u32 {
    ghost from_gives = { λ severity number. number ≡ severity_number severity };

    fn from(severity: Severity) -> u32 {
        match severity {
            Severity::Error => 0,
            Severity::Deny => 1,
            Severity::Warn => 2,
            Severity::Allow => 3,
        }
    }
}

// The severity of a number.
impl TryFrom<u32> for Severity {
    type Error = UnknownNumber;

    ghost try_from_gives = { λ number r. MatchResult r (λ severity. severity_number severity ≡ number) (λ e. (e.0 ≡ number) × (leb number allow ≡ false)) };

    fn try_from(number: u32) -> Result<Severity, UnknownNumber> {
        match number {
            0 => Ok(Severity::Error),
            1 => Ok(Severity::Deny),
            2 => Ok(Severity::Warn),
            3 => Ok(Severity::Allow),
            _ => Err(UnknownNumber(number)),
        }
    }
}

impl Lint {
    // All of them, in the order in which they are done.
    pub const ALL: [Lint; 4] = [Lint::Dead, Lint::Recognition, Lint::Builtin, Lint::Open];

    // The severity that a lint itself chooses.
    fn own_severity(self) -> Severity
        ensures { severity_number result ≡ own_severity (lint_meant self) }
    {
        match self {
            Lint::Open => Severity::Allow,
            _ => Severity::Deny,
        }
    }
}

// Settings as they were lent: a mode, 0 classic and 1 strict, and overrides. Any numbers may stand here, since `is_allowed` is itself the test of them
// (refusal 14); so a severity that an override says stays a number too.
#[derive(Clone, Copy)]
pub struct Settings<'a> {
    pub mode: u32,
    pub overrides: &'a [u32],
}

// Whether a word is an override.
fn override_allowed(word: u32) -> bool
    ensures { result ≡ override_allowed (override_from word) }
{
    Lint::try_from(word / 256).is_ok() && Severity::try_from(word % 256).is_ok()
}

// Whether all words are overrides.
fn overrides_allowed(overrides: &[u32]) -> bool
    ensures { result ≡ overrides_allowed (map override_from overrides.now) }
{
    overrides.iter().all(|word| override_allowed(*word))
}

impl Settings<'_> {
    // Whether settings are allowed (refusal 14).
    pub fn is_allowed(&self) -> bool
        ensures { result ≡ settings_allowed (settings_meant self.now) }
    {
        self.mode <= 1 && self.overrides.len() <= 8 && overrides_allowed(self.overrides)
    }

    // What the first override of a lint says: nothing, or its severity.
    fn level_of(&self, lint: Lint) -> Option<u32>
        ensures { level_from result ≡ override_of (map override_from self.now.overrides.now) (lint_meant lint) }
    {
        let number = u32::from(lint);
        for word in self.overrides {
            if *word / 256 == number {
                return Some(*word % 256);
            }
        }
        None
    }

    // The severity of a lint's findings.
    pub fn severity_of(&self, lint: Lint) -> u32
        ensures { result ≡ severity_of (settings_meant self.now) (lint_meant lint) }
    {
        match self.level_of(lint) {
            None => u32::from(lint.own_severity()),
            Some(severity) => severity,
        }
    }

    // Whether a lint's findings are shown.
    pub fn is_shown(&self, lint: Lint) -> bool
        ensures { result ≡ is_shown (settings_meant self.now) (lint_meant lint) }
    {
        match self.level_of(lint) {
            None => self.mode != 0 || lint.own_severity() != Severity::Allow,
            Some(severity) => severity != u32::from(Severity::Allow),
        }
    }
}
