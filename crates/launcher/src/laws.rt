//! What holds of the listings of all sources.
ghost use Rattle.std.specs.Prelude.{◌≡◌, ℕ, List, true};
ghost use Rattle.std.specs.List.{list_all};
ghost use Rattle.launcher.specs.Launching.{AreListings};
ghost use Rattle.model.specs.ClassListings.{ClassListing};
ghost use Rattle.model.specs.WellNamed.{is_well_named};

/// The listing of each text and of each class file names classes by the names of classes, and types by these or by the
/// descriptors of arrays. So a program of sources is refused as L10 for its methods alone.
pub fn sources_are_well_named()
    ensures { (sources : List (List ℕ)) (listings : List ClassListing) → AreListings sources listings
        → list_all is_well_named listings ≡ true }
{
    jasmin::texts_are_spelled();
}
