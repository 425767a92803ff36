//! What the frames of a generated capture carry.
ghost use Rattle.std.specs.Prelude.{◌≡◌, ℕ, take};
ghost use Rattle.frame_headers.specs.FrameClass.{class_of, Tcp};
ghost use Rattle.flow_table.specs.{Steered.{segments_of, steered_of}, Flows.{flows_of}};
ghost use Rattle.cap_make.specs.{GeneratedCapture.{piece_of, frame_of_piece}, Carried.{segment_with, generated_frames, four_flows, ports}};

/// Each frame is a whole TCP segment, to its flow's port, with the bytes of its piece at their place in the flow.
pub fn frames_are_segments()
    ensures { (seed k x : ℕ) → class_of (frame_of_piece seed (piece_of k x))
        ≡ Tcp (segment_with seed (piece_of k x)) }
{}

/// The capture has four flows, one to each port, all of which begin at position 0: the first so many of them, where it
/// has fewer frames.
pub fn flows_are_four()
    ensures { (seed n : ℕ) → flows_of (steered_of ports (segments_of (generated_frames seed n)))
        ≡ take n four_flows }
{}
