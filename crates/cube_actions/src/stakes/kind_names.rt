ghost use Rattle.std.specs.Prelude.{◌≡◌, ◌<◌, ◌↔◌, IsSome, IfSome, Some, length, slice_get};
ghost use Rattle.std.specs.List.{Contains};
ghost use Rattle.cube_actions.specs.Names.{names_of};

use crate::name::KindName;
use crate::names::names_of;
use crate::stakes::Stakes;

impl Stakes {
    /// The number of the kind of this name. `None` exactly where these stakes have no kind of that name.
    pub fn number_of(&self, name: KindName) -> Option<usize>
        ensures found { IfSome result (λ number.
            slice_get (names_of self.now.name) number ≡ Some name) }
        ensures in_range { IfSome result (λ number. number < length self.now.kinds) }
        ensures some { IsSome result ↔ Contains (names_of self.now.name) name }
    {
        let names = names_of(self.name);
        names.as_slice().iter().position(|other| name.is(*other))
    }

    /// The name of the kind of a number.
    pub fn kind_name(&self, number: usize) -> KindName
        requires { number < length self.now.kinds }
        ensures { slice_get (names_of self.now.name) number ≡ Some result }
    {
        names_of(self.name)[number]
    }
}
