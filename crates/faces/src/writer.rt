// Faces into a lent buffer, three numbers each.
ghost use Rattle.std.specs.Prelude.{length};
ghost use Rattle.faces.specs.Writer.{HasRoom, Writes};

pub(crate) type Face = (u32, u32, u32);

// A lent buffer, and its first free place: the caller's memory, and so no `Vec`.
#[derive(Drop)]
pub(crate) struct FaceWriter<'a> {
    pub(crate) out: &'a mut [u32],
    pub(crate) at: usize,
}

impl<'a> FaceWriter<'a> {
    // The faces, one behind another. Number by number, with the buffer and the place beside the loop: a slice of three
    // that is copied in waits for what was just stored, and a place in the writer is loaded for each number.
    pub(crate) fn write(&mut self, faces: &[Face])
        requires { HasRoom (length faces.now) self.old }
        ensures { Writes faces.now self.old self.new }
    {
        let out = &mut *self.out;
        let mut at = self.at;
        for (a, b, c) in faces {
            out[at] = *a;
            out[at + 1] = *b;
            out[at + 2] = *c;
            at += 3;
        }
        self.at = at;
    }
}
