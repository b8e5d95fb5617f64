// What holds of an image that is cut off.
ghost use Rattle.image_model.specs.Cuts.{CutImagesAreNone};

/// No executable is left where an executable's file is cut off before the end of its file header, its section headers or
/// its program headers.
#[tactic(auto, using(crate::proofs::CutLemmas::cut_images_are_none))]
pub fn cut_images_are_none()
    ensures { CutImagesAreNone }
{}
