ghost use Rattle.std.specs.Prelude.{◌≡◌, ℕ, ◌≤◌, List, Contains};
ghost use lib.ListN.{get_elem?};
ghost use mathlib.Core.Option.{some};
ghost use Rattle.block_claims.specs.declared.views.Claim.{Claim};
ghost use Rattle.block_claims.specs.declared.views.ClaimView.{ClaimView};
ghost use Rattle.block_claims.specs.Views.{ClaimCore, AreKept, WasFound, WasClaimed};
ghost use Rattle.block_claims.specs.Events.{claim_core, ClaimEvent, LeadTo};

/// Whatever events come, in any order, the rule of claims holds after them, and each event keeps it.
pub fn claims_are_kept()
    ensures each { (blocks : ℕ) (words later : List ℕ) (views now : List ClaimView)
        → AreKept blocks (claim_core words views) → ClaimEvent words views later now
        → AreKept blocks (claim_core later now) }
    ensures all { (blocks : ℕ) (words : List ℕ) (views : List ClaimView)
        → LeadTo blocks words views → AreKept blocks (claim_core words views) }
{}

/// Where the rule holds, no two seats have the same claim.
pub fn each_claim_has_one_seat()
    ensures { (blocks : ℕ) (s : ClaimCore) → AreKept blocks s
        → (one other : ℕ) (view another : ClaimView) (claim : Claim)
        → get_elem? s.views one ≡ some view → get_elem? s.views other ≡ some another
        → Contains view.claims claim → Contains another.claims claim → one ≡ other }
{}

/// Where a block's word was found at a round or above it, some seat had claimed the block for that round or a later
/// one. So that is what `claim` tells by false.
pub fn lost_blocks_are_claimed()
    ensures { (view : ClaimView) (block round word : ℕ) (moment : WasFound view block word)
        → 1 ≤ round → round ≤ word → WasClaimed moment.core block round }
{}
