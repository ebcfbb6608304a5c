// A store over an image of bytes, eight for each object, the highest first.
ghost use Rattle.std.specs.Prelude.{◌≡◌, ◌*◌, min, replicate, IfOk, slice_set};
ghost use Rattle.terms.specs.Objects.{has_object};
ghost use Rattle.stores.specs.Image.{image_words, image_values, image_short, image_written};

use super::objects::first_objects;
use std::alloc::{AllocError, Global};
use terms::Store;

const BYTES: usize = 8;

#[derive(Drop)]
pub struct ImageStore {
    image: Vec<u8>,
}

impl ImageStore {
    // A store over these bytes.
    pub fn new(bytes: Vec<u8>) -> ImageStore
        ensures whole { result.image ≡ bytes }
        ensures holds { image_values result.image.items ≡ image_values bytes.items }
    {
        ImageStore { image: bytes }
    }

    // A store over the bytes of so many objects, all at 0.
    #[tactic(auto, using(crate::proofs::Images::image_zeros))]
    pub fn zeroed(heap: Global, count: u32) -> Result<ImageStore, AllocError>
        ensures whole { IfOk result (λ s. s.image.items ≡ replicate (count * 8) 0) }
        ensures holds { IfOk result (λ s. image_values s.image.items ≡ replicate (min 65536 count) 0) }
    {
        let image = vec![in heap; 0; count as usize * BYTES]?;
        Ok(ImageStore { image })
    }

    // The words of the objects, each of eight bytes.
    #[tactic(auto, unfolding(crate::specs::Image::image_words))]
    fn words(&self) -> &[[u8; BYTES]]
        ensures { result.now ≡ image_words self.now.image.items }
    {
        let (words, _) = self.image.as_chunks();
        first_objects(words)
    }

    // The bytes, those of no object too.
    pub fn bytes(&self) -> &[u8]
        ensures { result.now ≡ self.now.image.items }
    {
        self.image.as_slice()
    }

    // Gives the image back.
    pub fn into_bytes(self) -> Vec<u8>
        ensures { result ≡ self.image }
    {
        let ImageStore { image } = self;
        image
    }
}

impl Store for ImageStore {
    ghost values = { λ s. image_values s.image.items };

    ghost short = { λ s. image_short s.image.items };

    #[tactic(auto, unfolding(crate::specs::Image::image_values))]
    fn len(&self) -> u64 {
        self.words().len() as u64
    }

    #[tactic(auto, unfolding(crate::specs::Image::image_values))]
    fn read(&self, object: u64) -> Option<u64> {
        self.words()
            .get(object as usize)
            .map(|word| u64::from_be_bytes(*word))
    }

    #[tactic(auto, using(crate::proofs::Images::values_fit))]
    fn write(&mut self, object: u64, value: u64) -> Option<()>
        ensures answers { result ≡ has_object (image_values self.old.image.items) object }
        ensures replaces { image_values self.new.image.items ≡ slice_set (image_values self.old.image.items) object value }
        ensures whole { self.new.image.items ≡ image_written self.old.image.items object value }
    {
        if object >= self.len() {
            return None;
        }
        // By one word: of words that `as_chunks_mut` or `chunks_exact_mut` lends, nothing is known once they are given back.
        let (_, rest) = self.image.split_at_mut(object as usize * BYTES);
        let word = rest.first_chunk_mut().unwrap();
        *word = value.to_be_bytes();
        Some(())
    }
}
