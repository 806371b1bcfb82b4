// The names that a source declares, and the cell of each.
ghost use Rattle.std.specs.Prelude.{◌≡◌, MatchResult};
ghost use Rattle.std.specs.Str.{bytes_eq};
ghost use Rattle.syntax.specs.TreeOf.{name_of};
ghost use Rattle.names.specs.Cells.{cell_of, Looked};
ghost use Rattle.names.specs.Declares.{Declaration, Refuses};
ghost use Rattle.names.specs.Scopes.{entries};

use crate::refusals::Refusal;
use syntax::tree::Name;

const MAX_NAMES: usize = 64;

// A source, and where the names that it declares stand in it.
#[derive(Clone, Copy)]
pub struct Scope<'a> {
    pub source: &'a [u8],
    pub declared: &'a [Name],
}

impl<'a> Scope<'a> {
    // The bytes of a name, as far as they lie in the source.
    fn spelling(&self, name: Name) -> &'a [u8]
        ensures { result.now ≡ name_of self.now.source.now name }
    {
        let start = (name.place as usize).min(self.source.len());
        let end = (start + name.length as usize).min(self.source.len());
        &self.source[start..end]
    }

    fn same(&self, left: Name, right: Name) -> bool
        ensures { result ≡ bytes_eq (name_of self.now.source.now left) (name_of self.now.source.now right) }
    {
        self.spelling(left) == self.spelling(right)
    }

    // The cell of a name: 1 for the first that is declared, and so on.
    pub fn cell(&self, name: Name) -> Option<usize>
        ensures value { result ≡ cell_of (entries self.now) (name_of self.now.source.now name) }
        ensures looked { Looked (entries self.now) (name_of self.now.source.now name) result }
    {
        self.declared
            .iter()
            .position(|other| self.same(name, *other))
            .map(|i| i + 1)
    }

    // Whether at most 64 names are declared, and each once.
    pub fn check_declared(&self) -> Result<(), Refusal>
        ensures { MatchResult result (λ _. Declaration (entries self.now)) (λ e. Refuses (entries self.now) e) }
    {
        if let Some(name) = self.declared.get(MAX_NAMES) {
            return Err(Refusal::TooMany(name.place));
        }
        // A look-up among those before it and no set, which allocates: this answer has no case for want of memory.
        for (i, name) in self.declared.iter().enumerate() {
            let earlier = Scope {
                declared: &self.declared[..i],
                ..*self
            };
            if earlier.cell(*name).is_some() {
                return Err(Refusal::Repeated(name.place));
            }
        }
        Ok(())
    }
}
