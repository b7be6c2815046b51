// What holds of images, whoever made them. The function says it by its contract, and does nothing.
ghost use Rattle.image_file.specs.Image.{OneImage, LawfulImagesAreRead};

/// Words have one image: two lists of words with one image are equal. The image of words that stand for a state is
/// refused only for want of memory, so what `image_of` gives is read back with equal words.
pub fn images_are_read_back()
    ensures one { OneImage }
    ensures read { LawfulImagesAreRead }
{}
