//! Plays sequences, each on a world of its own.

use crate::course::Course;
use crate::failure::Failure;
use crate::looking::{is_expected, look};
use crate::telling::{Telling, an_end, counted, endless};
use fb_verified::Verified;
use fb_world::World;
use fbr_places::Writing;
use fbr_story::{Action, Expected, Sequence, Span, Step, Stimulus};
use fbr_watch::Watching;
use std::alloc::{AllocError, Global};
use std::io::Write;
use std::rc::Rc;

// A sequence that is played, and the story that it is of.
#[derive(Clone, Copy)]
struct Scene<'a> {
    alloc: Global,
    telling: &'a Telling<'a, 'a>,
    sequence: &'a Sequence<'a>,
}

impl Scene<'_> {
    // The failure of the step of this text, by what it wants and what came.
    fn failed(
        &self,
        said: Span,
        wanted: Writing,
        came: Writing,
    ) -> Result<Option<Failure>, AllocError> {
        Ok(Some(self.telling.failure(self.alloc, said, wanted, came)?))
    }

    // Compares what was seen with what was wanted.
    fn compare<F: Write + Drop, W: Write>(
        &self,
        stimulus: &Stimulus,
        course: &Course<'_, '_, '_, F, W>,
    ) -> Result<Option<Failure>, AllocError> {
        let is_as_wanted = match &stimulus.wanted {
            Some(wanted) => course.sights.are(wanted, course.devices),
            None => !course.sights.has_denial(),
        };
        if is_as_wanted {
            return Ok(None);
        }
        let wanted = self.telling.wanted(self.alloc, &stimulus.wanted);
        let came = self.telling.seen(self.alloc, &course.sights)?;
        self.failed(stimulus.said, wanted, came)
    }

    // Compares how many steps were taken with how many may be.
    fn count<F: Write + Drop, W: Write>(
        &self,
        stimulus: &Stimulus,
        course: &Course<'_, '_, '_, F, W>,
    ) -> Result<Option<Failure>, AllocError> {
        if let Some(most) = stimulus.most {
            let steps = course.sights.steps;
            if steps > most {
                let wanted = counted(self.alloc, "STEPS <= ", most);
                return self.failed(stimulus.said, wanted, counted(self.alloc, "STEPS ", steps));
            }
        }
        Ok(None)
    }

    // That serving did not end behind what this text says.
    fn endless<F: Write + Drop, W: Write>(
        &self,
        said: Span,
        course: &Course<'_, '_, '_, F, W>,
    ) -> Result<Option<Failure>, AllocError> {
        self.failed(said, an_end(self.alloc), endless(self.alloc, course))
    }

    // Plays a stimulus.
    fn stimulate<F: Write + Drop, W: Write>(
        &self,
        stimulus: &Stimulus,
        course: &mut Course<'_, '_, '_, F, W>,
        world: &mut World,
    ) -> Result<Option<Failure>, AllocError> {
        course.happen(world, &stimulus.cause)?;
        course.leave_out(stimulus.carrying);
        if course.is_spent() {
            return self.endless(stimulus.said, course);
        }
        match self.compare(stimulus, course)? {
            Some(failure) => Ok(Some(failure)),
            None => self.count(stimulus, course),
        }
    }

    // Looks whether something is as expected.
    fn expect(
        &self,
        said: Span,
        expected: &Expected<'_>,
        world: &World,
    ) -> Result<Option<Failure>, AllocError> {
        let finding = look(world, &expected.looked);
        let is_as_expected = match finding {
            Some(finding) => is_expected(&expected.looked, finding),
            None => false,
        };
        if is_as_expected {
            return Ok(None);
        }
        let wanted = self.telling.line(self.alloc, expected.wanted);
        let came = self.telling.found(self.alloc, &expected.looked, finding);
        self.failed(said, wanted, came)
    }

    // Plays a step.
    fn play<F: Write + Drop, W: Write>(
        &self,
        step: &Step<'_>,
        course: &mut Course<'_, '_, '_, F, W>,
        world: &mut World,
    ) -> Result<Option<Failure>, AllocError> {
        match &step.action {
            Action::Stimulus(stimulus) => self.stimulate(stimulus, course, world),
            Action::Expect(expected) => self.expect(step.said, expected, world),
            Action::Next(fate) => {
                course.network.next_has(*fate)?;
                Ok(None)
            }
            Action::Silence(device) => {
                course.network.silence(*device)?;
                Ok(None)
            }
            Action::Heal => {
                course.network.heal();
                Ok(None)
            }
        }
    }

    // Serves the start of the system.
    fn start<F: Write + Drop, W: Write>(
        &self,
        course: &mut Course<'_, '_, '_, F, W>,
        world: &mut World,
    ) -> Result<Option<Failure>, AllocError> {
        course.serve(world)?;
        if course.is_spent() {
            return self.endless(self.sequence.said, course);
        }
        Ok(None)
    }

    // Plays all steps, up to the first that fails.
    fn play_all<F: Write + Drop, W: Write>(
        &self,
        world: &mut World,
        watching: &mut Watching<'_, '_, F>,
        output: &mut W,
    ) -> Result<Option<Failure>, AllocError> {
        let devices = self.telling.names.devices();
        let mut course = Course::new(self.alloc, devices, watching, output);
        course.watch(world, self.telling.source(self.sequence.name));
        if let Some(failure) = self.start(&mut course, world)? {
            return Ok(Some(failure));
        }
        for step in &self.sequence.steps {
            if let Some(failure) = self.play(step, &mut course, world)? {
                return Ok(Some(failure));
            }
        }
        Ok(None)
    }
}

/// Plays a sequence on a fresh world. Gives the step that failed, if one did.
pub fn play_sequence<F: Write + Drop, W: Write>(
    alloc: Global,
    verified: &Rc<Verified>,
    telling: &Telling<'_, '_>,
    sequence: &Sequence<'_>,
    watching: &mut Watching<'_, '_, F>,
    output: &mut W,
) -> Result<Option<Failure>, AllocError> {
    let scene = Scene {
        alloc,
        telling,
        sequence,
    };
    match World::over(alloc, verified.clone()?) {
        Ok(mut world) => {
            let played = scene.play_all(&mut world, watching, output);
            world.let_go();
            played
        }
        Err(_) => Err(AllocError),
    }
}
