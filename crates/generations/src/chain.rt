// The two highest generations of a folder.
ghost use Rattle.std.specs.Prelude.{◌≡◌, ◌<◌, ◌≤◌, List, ℕ, ◌++◌, ◌∷◌, [], true, unwrap_or, IfOk, IfSome, IfNone};
ghost use Rattle.cas_outside.specs.Folder.{Stays};
ghost use Rattle.generations.specs.Chain.{AreTwoHighest, IsListed, IsToldChain};
ghost use Rattle.generations.specs.GenerationNames.{IsNameOf};

use crate::generation_names::number_of;
use cas_outside::{Folder, FolderError, Name};

/// The numbers of the two highest generations, where there are so many.
#[derive(Clone, Copy)]
pub(crate) struct Chain {
    /// The highest number.
    pub primary: Option<u32>,
    /// The highest number below that of the primary.
    pub upstream: Option<u32>,
}

impl Chain {
    /// The two highest generations among the files with these names. Names of no generation are passed over.
    pub(crate) fn of(names: &[Name]) -> Chain
        ensures { AreTwoHighest (IsListed names.now) result.primary result.upstream }
    {
        let mut chain = Chain {
            primary: None,
            upstream: None,
        };
        for name in names {
            chain = chain.with(name.list());
        }
        chain
    }

    /// The number of the generation with this name, where it is below the upstream.
    pub(crate) fn unused(self, name: &[u8]) -> Option<u32>
        ensures found { IfSome result (λ number. IsNameOf number name.now) }
        ensures below { IfSome result (λ number. number < unwrap_or self.upstream 0) }
        ensures none { IfNone result ((number : ℕ) → IsNameOf number name.now → unwrap_or self.upstream 0 ≤ number) }
    {
        let number = number_of(name)?;
        if number < self.upstream.unwrap_or(0) {
            Some(number)
        } else {
            None
        }
    }

    // The two highest with one name more.
    fn with(self, name: &[u8]) -> Chain
        ensures { (names : List (List ℕ)) → AreTwoHighest (IsListed names) self.primary self.upstream → AreTwoHighest (IsListed (names ++ name.now ∷ [])) result.primary result.upstream }
    {
        let Some(number) = number_of(name) else {
            return self;
        };
        let primary = self.primary.unwrap_or(0);
        if number > primary {
            Chain {
                primary: Some(number),
                upstream: self.primary,
            }
        } else if number < primary && number > self.upstream.unwrap_or(0) {
            Chain {
                primary: self.primary,
                upstream: Some(number),
            }
        } else {
            self
        }
    }
}

/// The two highest generations of a folder.
pub(crate) fn chain_of<F: Folder>(folder: &mut F) -> Result<Chain, FolderError>
    requires { (F.view folder.old).locked ≡ true }
    ensures ok { IfOk result (λ chain. IsToldChain (F.view folder.old).files chain.primary chain.upstream) }
    ensures stays { Stays (F.view folder.old) (F.view folder.new) result }
{
    let names = folder.names()?;
    Ok(Chain::of(names.as_slice()))
}
